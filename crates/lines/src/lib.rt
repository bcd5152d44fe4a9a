// Lines: a frame's kind and length, and a frame as its line of digits, read and written.
#![tactic(auto)]

ghost use Rattle.std.specs.Prelude.{◌≡◌, ◌+◌, ◌*◌, ◌≤◌, IfOk, IfSome, length};
ghost use Rattle.std.specs.Bool.{then_some};
ghost use Rattle.laws.specs.Lists.{over};
ghost use Rattle.tasks.specs.Told.{refusal_of};
ghost use Rattle.lines.specs.Frame.{length_of_kind, sort_of, ten_bytes};
ghost use Rattle.lines.specs.Lines.{is_digit, digit_of, pairs, bytes_of, line_in, hex_of, line_of};
ghost use Rattle.lines.specs.Refusal.{in_problem, frame_refusal, line_refusal};
ghost use Rattle.lines.specs.Told.{code_of, IsFrame};

use tasks::Refusal;

// The kinds of frames.
#[derive(Clone, Copy, PartialEq, Eq)]
pub enum Kind {
    Cores = 1,
    Task = 2,
    Rates = 3,
    Limit = 4,
    Verdict = 5,
    Slot = 6,
    End = 7,
}

impl From<Kind> for u8 {
    ghost use Rattle.lines.specs.Told.{code_of};
    ghost use Rattle.std.specs.Prelude.{◌≡◌};

    ghost from_gives = { λ kind code. code ≡ code_of kind };

    fn from(kind: Kind) -> u8 {
        kind as u8
    }
}

impl TryFrom<u8> for Kind {
    ghost use Rattle.lines.specs.Told.{DecodesKind};

    type Error = Refusal;

    ghost try_from_gives = { DecodesKind };

    fn try_from(code: u8) -> Result<Kind, Refusal> {
        match code {
            1 => Ok(Kind::Cores),
            2 => Ok(Kind::Task),
            3 => Ok(Kind::Rates),
            4 => Ok(Kind::Limit),
            5 => Ok(Kind::Verdict),
            6 => Ok(Kind::Slot),
            7 => Ok(Kind::End),
            _ => Err(Refusal::Kind),
        }
    }
}

impl Kind {
    // Each kind of frame has its fixed length in bytes.
    fn length(self) -> usize
        ensures { result ≡ length_of_kind (code_of self) }
    {
        match self {
            Kind::Cores => 2,
            Kind::Task => 10,
            Kind::Rates | Kind::Limit | Kind::Verdict => 6,
            Kind::Slot => 7,
            Kind::End => 1,
        }
    }

    // 05 and 06 stand in an answer alone.
    #[tactic(auto, unfolding(crate::specs::Frame::sort_of, tasks::specs::Refusal::within))]
    fn in_problem(self) -> bool
        ensures { result ≡ in_problem (sort_of (code_of self)) }
    {
        !matches!(self, Kind::Verdict | Kind::Slot)
    }
}

// A frame: its kind, and its bytes, filled up with 0. Ten are the most that a kind has, and the kind tells how many they are.
#[derive(Clone, Copy)]
pub struct Frame {
    pub kind: Kind,
    pub bytes: [u8; 10],
}

// What one of 0-9A-F stands for.
fn digit(c: u8) -> Option<u8>
    ensures value { result ≡ then_some (is_digit c) (digit_of c) }
    ensures bound { IfSome result (λ d. d ≤ 15) }
{
    match c {
        b'0'..=b'9' => Some(c - b'0'),
        b'A'..=b'F' => Some(c - b'A' + 10),
        _ => None,
    }
}

// The same, and 0 for any other byte.
#[tactic(auto, using(crate::proofs::FrameLaws::digit_or_0))]
fn value(c: u8) -> u8
    ensures { (result ≡ digit_of c) × (result ≤ 15) }
{
    digit(c).unwrap_or(0)
}

// Whether a text is made of pairs of 0-9A-F.
fn are_pairs(text: &[u8]) -> bool
    ensures { result ≡ pairs text.now }
{
    if text.len() % 2 != 0 {
        return false;
    }
    for c in text {
        if digit(*c).is_none() {
            return false;
        }
    }
    true
}

// The first ten of the bytes that pairs of digits stand for, filled up with 0.
pub fn frame_at(digits: &[u8]) -> [u8; 10]
    ensures { result ≡ ten_bytes (bytes_of digits.now) }
{
    let (pairs, _) = digits.as_chunks::<2>();
    let mut bytes = [0; 10];
    for (k, [high, low]) in pairs.iter().enumerate() {
        if k < 10 {
            bytes[k] = value(*high) * 16 + value(*low);
        }
    }
    bytes
}

// The digit of a number below 16.
fn hex(x: u8) -> u8
    requires { x ≤ 15 }
    ensures { result ≡ hex_of x }
{
    if x < 10 { b'0' + x } else { b'A' + (x - 10) }
}

// Writes a frame's line over the start of a text, and gives its length.
pub fn put_frame(out: &mut [u8], frame: &[u8]) -> usize
    requires { length frame.now * 2 + 1 ≤ length out.old }
    ensures { (result ≡ length frame.now * 2 + 1) × (out.new ≡ over (line_of frame.now) out.old) }
{
    for (k, byte) in frame.iter().enumerate() {
        out[k * 2] = hex(byte / 16);
        out[k * 2 + 1] = hex(byte % 16);
    }
    let end = frame.len() * 2;
    out[end] = b'\n';
    end + 1
}

// The kind of a frame of so many bytes; refusals 22 and 23, and 24 for a kind of an answer.
fn test_frame(code: u8, count: usize) -> Result<Kind, Refusal>
    ensures refusal { refusal_of result ≡ frame_refusal code count }
    ensures kind { IfOk result (λ kind. code_of kind ≡ code) }
{
    let kind = Kind::try_from(code)?;
    if count != kind.length() {
        return Err(Refusal::FrameLength);
    }
    if !kind.in_problem() {
        return Err(Refusal::Place);
    }
    Ok(kind)
}

// The frame of a line; or its refusal, 21 to 24.
pub fn read_line(line: &[u8]) -> Result<Frame, Refusal>
    ensures refusal { refusal_of result ≡ line_refusal (line_in line.now) }
    ensures frame { IfOk result (λ frame. IsFrame frame (bytes_of (line_in line.now).text)) }
{
    let digits = line.strip_suffix(b"\n").ok_or(Refusal::Line)?;
    if digits.is_empty() {
        return Err(Refusal::Line);
    }
    let paired = are_pairs(digits);
    if !paired {
        return Err(Refusal::Line);
    }
    let bytes = frame_at(digits);
    let kind = test_frame(bytes[0], digits.len() / 2)?;
    Ok(Frame { kind, bytes })
}

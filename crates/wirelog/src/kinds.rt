// The four kinds of records, and what the body of each may be. They are numbers, since a log may hold any other, and that is no fault.
ghost use Rattle.std.specs.Prelude.{◌≡◌};
ghost use Rattle.wirelog.specs.Kinds.{known, size_body, within};

// the chain size
pub const SIZE: u32 = 1;

// a frame out
pub const FRAME: u32 = 2;

pub const REPLY: u32 = 3;

// a free note
pub const NOTE: u32 = 4;

// Whether a kind is one of the four.
#[tactic(auto, unfolding(crate::specs::Kinds::known))]
pub fn is_known(kind: u32) -> bool
    ensures { result ≡ known kind }
{
    SIZE <= kind && kind <= NOTE
}

// Whether a body is one byte, 1 to 16.
#[tactic(auto, unfolding(crate::specs::Kinds::size_body))]
fn is_size(body: &[u8]) -> bool
    ensures { result ≡ size_body body.now }
{
    match *body {
        [n] => 1 <= n && n <= 16,
        _ => false,
    }
}

// Whether a body is within the limits of its kind, one of the four.
#[tactic(auto, unfolding(crate::specs::Kinds::within, lent::specs::Refusal::pick))]
pub fn is_within(kind: u32, body: &[u8]) -> bool
    ensures { result ≡ within kind body.now }
{
    match kind {
        SIZE => is_size(body),
        NOTE => body.len() <= 200,
        _ => body.len() <= 132,
    }
}

// What callers lend: bytes read and stored by place, never outside of what is there, and why an entry says no.
#![tactic(auto)]

ghost use Rattle.std.specs.Prelude.{◌≡◌, get_or, set};
ghost use Rattle.lent.specs.Areas.{all_within};
ghost use Rattle.lent.specs.Refusals.{number_of};

// Why an entry says no, in the order of the desk's numbers.
#[derive(Clone, Copy, Debug, PartialEq, Eq)]
pub enum Refusal {
    // the list is over its bound
    ListTooLong,
    // it has not the form of a list
    ListBroken,
    // a memory or a state is not as long as the chips are large
    LentLengths,
    // a pointer past the memory, or a busy time past its bound
    StateOutOfRange,
    // a hold is longer than SCL may be held
    HoldTooLong,
    // the asked busy time is past its bound
    BusyTooLong,
    // the result area is smaller than the list asks for
    AreaTooSmall,
    // a sample is no pair of levels
    SampleOutOfRange,
    // fewer drive bytes than samples
    DrivesTooShort,
    // there is no such strap
    NoSuchStrap,
}

// The desk's number.
impl From<Refusal> for u8 {
    ghost from_gives = { λ r n. n ≡ number_of r };

    fn from(refusal: Refusal) -> u8 {
        match refusal {
            Refusal::ListTooLong => 1,
            Refusal::ListBroken => 2,
            Refusal::LentLengths => 3,
            Refusal::StateOutOfRange => 4,
            Refusal::HoldTooLong => 5,
            Refusal::BusyTooLong => 6,
            Refusal::AreaTooSmall => 7,
            Refusal::SampleOutOfRange => 8,
            Refusal::DrivesTooShort => 9,
            Refusal::NoSuchStrap => 10,
        }
    }
}

// The byte at a place, and 0 past the end.
pub fn byte_at(s: &[u8], at: usize) -> u8
    ensures { result ≡ get_or s.now at 0 }
{
    if at < s.len() { s[at] } else { 0 }
}

// A store that does nothing past the end.
pub fn put_at(s: &mut [u8], at: usize, x: u8)
    ensures { s.new ≡ set s.old at x }
{
    if at < s.len() {
        s[at] = x;
    }
}

// No byte is over the most.
pub fn all_within(most: u8, s: &[u8]) -> bool
    ensures { result ≡ all_within most s.now }
{
    for &x in s {
        if most < x {
            return false;
        }
    }
    true
}

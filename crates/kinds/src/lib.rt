// What a message's kind byte and length byte say, and the limits of a list. Nothing above looks at a kind's number.
// A kind is a byte and no enum of four: is_write, is_critical, data_of, asked_of, quota_of, is_kind and is_length promise an answer for every byte,
// and an enum would ask of their callers that they have one of the four.
#![tactic(auto)]

ghost use Rattle.std.specs.Prelude.{◌≡◌};
ghost use Rattle.kinds.specs.Kinds.{is_write, is_critical, kind_right, address_right, count_right, length_right, data_of, asked_of, quota_of, follow, remain};

// The most that a transaction has in messages, a message in bytes written or asked for.
pub const MOST_MESSAGES: u8 = 8;

pub const MOST_LENGTH: u8 = 64;

// How many bytes a read still asks for after the one under way.
#[derive(Clone, Copy, Debug, PartialEq, Eq)]
pub struct Quota {
    pub more: u8,
}

impl Quota {
    // How many bytes follow one of this value.
    #[tactic(auto, unfolding(crate::specs::Kinds::follow))]
    pub fn follow(self, byte: u8) -> u8
        ensures { result ≡ follow self byte }
    {
        self.more
    }

    // The quota of the next byte, with n more after that.
    #[tactic(auto, unfolding(crate::specs::Kinds::remain))]
    pub fn remain(self, n: u8) -> Quota
        ensures { result ≡ remain self n }
    {
        Quota { more: n }
    }
}

// Stays: the kind is a byte, since the contract answers for every byte.
#[tactic(auto, unfolding(crate::specs::Kinds::is_write))]
pub fn is_write(kind: u8) -> bool
    ensures { result ≡ is_write kind }
{
    kind % 2 == 0
}

// Stays: the kind is a byte, since the contract answers for every byte.
#[tactic(auto, unfolding(crate::specs::Kinds::is_critical))]
pub fn is_critical(kind: u8) -> bool
    ensures { result ≡ is_critical kind }
{
    kind < 2
}

// The data bytes that follow in the list.
// Stays: the kind is a byte, since the contract answers for every byte; and one function with a flag for data_of and asked_of would say less at a call.
#[tactic(auto, unfolding(crate::specs::Kinds::data_of))]
pub fn data_of(kind: u8, n: u8) -> u8
    ensures { result ≡ data_of kind n }
{
    if is_write(kind) { n } else { 0 }
}

// The bytes asked of a read.
// Stays: for the same reasons as data_of.
#[tactic(auto, unfolding(crate::specs::Kinds::asked_of))]
pub fn asked_of(kind: u8, n: u8) -> u8
    ensures { result ≡ asked_of kind n }
{
    if is_write(kind) { 0 } else { n }
}

// What a read's first byte leaves to come.
// Stays: the kind is a byte, since the contract answers for every byte.
#[tactic(auto, unfolding(crate::specs::Kinds::quota_of))]
pub fn quota_of(kind: u8, n: u8) -> Quota
    ensures { result ≡ quota_of kind n }
{
    Quota {
        more: n.saturating_sub(1),
    }
}

// Stays: the kind is a byte, since the contract answers for every byte.
#[tactic(auto, unfolding(crate::specs::Kinds::kind_right))]
pub fn is_kind(kind: u8) -> bool
    ensures { result ≡ kind_right kind }
{
    kind <= 3
}

#[tactic(auto, unfolding(crate::specs::Kinds::address_right))]
pub fn is_address(address: u8) -> bool
    ensures { result ≡ address_right address }
{
    address <= 127
}

#[tactic(auto, unfolding(crate::specs::Kinds::count_right, crate::specs::Kinds::most_messages))]
pub fn is_count(count: u8) -> bool
    ensures { result ≡ count_right count }
{
    (1..=MOST_MESSAGES).contains(&count)
}

// A read of no byte would never get the 1 that ends it.
// Stays: the kind is a byte, since the contract answers for every byte.
#[tactic(auto, unfolding(crate::specs::Kinds::length_right, crate::specs::Kinds::most_length))]
pub fn is_length(kind: u8, n: u8) -> bool
    ensures { result ≡ length_right kind n }
{
    let least = if is_write(kind) { 0 } else { 1 };
    (least..=MOST_LENGTH).contains(&n)
}

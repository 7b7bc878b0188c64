// The order list: which form it has, how large its result area is, and what stands at a place of it.
#![tactic(auto)]

ghost use Rattle.std.specs.Prelude.{◌≡◌, suc, ◌+◌, ◌*◌, ◌<◌, ◌≤◌, length, get_or, true, false};
ghost use Rattle.std.specs.Result.{MatchResult};
ghost use Rattle.kinds.specs.Kinds.{most_bytes};
ghost use Rattle.orders.specs.Form.{breaks, cut, message_at};
ghost use Rattle.orders.specs.Results.{check_of, refusal_of, list_number, room_of};
ghost use Rattle.orders.specs.Check.{found_as, Tells};
ghost use Rattle.orders.specs.Places.{size_at, room_at};
ghost use Rattle.orders.specs.declared.ListError.TheVariants.{Broken};
ghost use Rattle.orders.specs.Start.{zeroed, outcomes_from, started_of};

use kinds::{asked_of, data_of, is_address, is_count, is_kind, is_length};
use lent::{Refusal, byte_at, put_at};

// The most that a list has in bytes.
pub const MOST_BYTES: usize = 4096;

// Which rule of the form a list breaks.
#[derive(Clone, Copy, Debug, PartialEq, Eq)]
pub enum Rule {
    CutShort,
    Count,
    Address,
    Kind,
    Length,
}

// The first byte that breaks the form, and the rule that it breaks. A list that is cut short breaks it at its end.
#[derive(Clone, Copy, Debug, PartialEq, Eq)]
pub struct Break {
    pub place: usize,
    pub rule: Rule,
}

// Why a list is turned down.
#[derive(Clone, Copy, Debug, PartialEq, Eq)]
pub enum ListError {
    TooLong,
    Broken(Break),
}

impl From<Break> for ListError {
    ghost from_gives = { λ b e. e ≡ Broken b };

    fn from(broken: Break) -> ListError {
        ListError::Broken(broken)
    }
}

impl From<ListError> for Refusal {
    ghost from_gives = { λ e r. r ≡ refusal_of e };

    fn from(error: ListError) -> Refusal {
        match error {
            ListError::TooLong => Refusal::ListTooLong,
            ListError::Broken(_) => Refusal::ListBroken,
        }
    }
}

// The number on the desk's list of what `check` said, 0 if the list is accepted.
// Stays: it keeps what a public function promised; the entries pass the refusal on.
pub fn number(checked: Result<usize, ListError>) -> u8
    ensures { result ≡ list_number checked }
{
    match checked {
        Ok(_) => 0,
        Err(error) => u8::from(Refusal::from(error)),
    }
}

// The result area that the list asks for, 0 if it is turned down.
pub fn room(checked: Result<usize, ListError>) -> usize
    ensures { result ≡ room_of checked }
{
    checked.unwrap_or(0)
}

// A message that stands where one is due: the place after it, and its slots in the result area.
#[derive(Clone, Copy)]
struct Whole {
    next: usize,
    slots: usize,
}

// ---- the check

// A list that is cut short breaks its form at its end.
fn cut_short(list: &[u8]) -> Break
    ensures { result ≡ cut list.now }
{
    Break {
        place: list.len(),
        rule: Rule::CutShort,
    }
}

// The byte that is due at a place.
fn byte_due(list: &[u8], at: usize) -> Result<u8, Break>
    ensures { MatchResult result (λ byte. (at < length list.now) × (byte ≡ get_or list.now at 0)) (λ broken. (length list.now ≤ at) × (broken ≡ cut list.now)) }
{
    list.get(at).copied().ok_or(cut_short(list))
}

// What stands at a place keeps a rule, or breaks it.
fn keeps(rule: Rule, place: usize, right: bool) -> Result<(), Break>
    ensures { MatchResult result (λ _. right ≡ true) (λ broken. (right ≡ false) × (broken ≡ breaks place rule)) }
{
    if right {
        Ok(())
    } else {
        Err(Break { place, rule })
    }
}

// The message at a place. A byte that is there is judged before the list is called cut short.
fn read_one(list: &[u8], at: usize) -> Result<Whole, Break>
    requires { (at ≤ length list.now) × (length list.now ≤ most_bytes) }
    ensures { result ≡ found_as (message_at list.now at) }
{
    let address = byte_due(list, at)?;
    keeps(Rule::Address, at, is_address(address))?;
    let kind = byte_due(list, at + 1)?;
    keeps(Rule::Kind, at + 1, is_kind(kind))?;
    let asked = byte_due(list, at + 2)?;
    keeps(Rule::Length, at + 2, is_length(kind, asked))?;
    let next = at + 3 + usize::from(data_of(kind, asked));
    if list.len() < next {
        return Err(cut_short(list));
    }
    Ok(Whole {
        next,
        slots: 2 + usize::from(asked_of(kind, asked)),
    })
}

// The list from a place on, where it ends or a transaction begins. `area` is the result area's size so far. The two functions call each other as the list is
// told: after a transaction's last message the next transaction begins.
// Stays: that a place lies in the list is about both, and a struct of a borrowed list and a place would say `rest.entry.list.now` in each clause.
// Inlined, or a list of short transactions goes two calls deep for each message and takes a quarter more time.
#[cycle(message_transaction)]
#[inline(always)]
fn transaction(list: &[u8], at: usize, area: usize) -> Result<usize, Break>
    requires { (at ≤ length list.now) × (length list.now ≤ most_bytes) × (area ≤ 256 * at) }
    ensures { Tells result area 0 list.now at }
{
    if list.len() <= at {
        return Ok(area);
    }
    let count = list[at];
    keeps(Rule::Count, at, is_count(count))?;
    if list.len() < at + 3 {
        return Err(cut_short(list));
    }
    message(list, at + 3, count.saturating_sub(1), area + 1)
}

// The list from a place on, where a message stands and `left` more of its transaction after it.
#[cycle(message_transaction)]
fn message(list: &[u8], at: usize, left: u8, area: usize) -> Result<usize, Break>
    requires { (at ≤ length list.now) × (length list.now ≤ most_bytes) × (area ≤ 256 * at) }
    ensures { Tells result area (suc left) list.now at }
{
    let whole = read_one(list, at)?;
    if left == 0 {
        transaction(list, whole.next, area + whole.slots)
    } else {
        message(list, whole.next, left - 1, area + whole.slots)
    }
}

// The check of a whole list: what is wrong in it is found before a line is driven or a byte changed.
pub fn check(list: &[u8]) -> Result<usize, ListError>
    ensures { result ≡ check_of list.now }
{
    if MOST_BYTES < list.len() {
        return Err(ListError::TooLong);
    }
    Ok(transaction(list, 0, 0)?)
}

// ---- what stands at a place

// The kind byte and the length byte of the message here.
fn head_at(list: &[u8], at: u32) -> (u8, u8)
    ensures { result ≡ (get_or list.now (at + 1) 0, get_or list.now (at + 2) 0) }
{
    let place = at as usize;
    (byte_at(list, place + 1), byte_at(list, place + 2))
}

// The bytes that the message here takes in the list.
// Stays: what size_at and room_at had in common is head_at, and each keeps its contract.
pub fn size_at(list: &[u8], at: u32) -> usize
    ensures value { result ≡ size_at list.now at }
    ensures small { result < 1024 }
{
    let (kind, n) = head_at(list, at);
    3 + usize::from(data_of(kind, n))
}

// The places that it has in the result area.
// Stays: as size_at.
pub fn room_at(list: &[u8], at: u32) -> usize
    ensures value { result ≡ room_at list.now at }
    ensures small { result < 1024 }
{
    let (kind, n) = head_at(list, at);
    2 + usize::from(asked_of(kind, n))
}

// ---- the start of the result area

fn clear(area: &mut [u8], size: usize)
    requires { size ≤ length area.old }
    ensures { area.new ≡ zeroed size area.old }
{
    area[..size].fill(0);
}

// 255 at each transaction's place: what stays there says that it was never reached.
fn outcomes(list: &[u8], area: &mut [u8])
    requires { length list.now ≤ most_bytes }
    ensures { area.new ≡ outcomes_from (suc (length list.now)) 0 list.now 0 0 area.old }
{
    let mut at = 0;
    let mut top = 0;
    // Stays: a turn goes over as many bytes as the transaction has, and a `for` goes on by one.
    while at < list.len() {
        let count = list[at];
        put_at(area, top, 255);
        at += 3;
        top += 1;
        for _ in 0..count {
            let place = at as u32;
            at += size_at(list, place);
            top += room_at(list, place);
        }
    }
}

// The result area of an accepted list, started: outcomes 255, the rest 0, bytes past `size` as they were. `size` is the one that `check` gave: with
// a larger one, bytes that are not the list's would be lost.
pub fn start(list: &[u8], size: usize, area: &mut [u8])
    ensures { area.new ≡ started_of list.now size area.old }
{
    if size <= area.len() && list.len() <= MOST_BYTES {
        clear(area, size);
        outcomes(list, area);
    }
}

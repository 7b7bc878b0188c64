// The plain reading of an accepted list: byte after byte, message after message, transaction after transaction.
// Stays: what is lent is a parameter each. With a struct of it (tried) a clause says `lent.entry.list.now` for `list.now`, and of the areas what the borrows inside
// held before and after. Stays: `Sound`, `Within` and bounds on the time stand in several contracts; the first is about a run and an area that is lent beside it,
// and the bounds differ from function to function, so that no type could hold them.
ghost use Rattle.std.specs.Prelude.{◌≡◌, not, ◌||◌, List, ℕ, suc, ◌+◌, ◌*◌, ◌<◌, ◌≤◌, get_or, length};
ghost use Rattle.kinds.specs.Kinds.{most_bytes, is_critical};
ghost use Rattle.orders.specs.Asking.{get};
ghost use Rattle.orders.specs.Marks.{read_mark, note_area};
ghost use Rattle.store.specs.Keeping.{takes, steps, starts};
ghost use Rattle.plain.specs.Clock.{symbols};
ghost use Rattle.plain.specs.Plain.{listens, answered, does, only, writes_all, carried, message_if, messages, closes, transactions};
ghost use Rattle.plain.specs.Inside.{far, symbol_most, time_of, Becomes};
ghost use Rattle.messages.specs.Inside.{byte_most, bytes_most, message_most, messages_most, transaction_most, world_of, Sound, Comes, Goes, transaction};
ghost use Rattle.messages.specs.Along.{Within, Few, bytes_at, slot_of, beyond, slots_at, batch_at, batches_at};

use crate::places::{beyond, next_batch, opened, others};
use crate::{Place, Run};
use kinds::{Quota, data_of, is_critical, is_write, quota_of};
use lent::{byte_at, put_at};
use plain::{Call, Time, all_send, all_start, all_stop, all_take, any_listens, value_of};

// A byte read goes into the result area, and its message's count rises.
fn note_read(quota: Quota, count: u8, byte: u8, slot: usize, results: &mut [u8])
    requires { (count < 255) × (slot + 300 ≤ far) }
    ensures { results.new ≡ note_area (read_mark quota count byte) slot results.old }
{
    put_at(results, slot + 2 + count as usize, byte);
    put_at(results, slot + 1, count + 1);
}

// After a message: its transaction goes on, unless the message was critical and nobody answered. Stays: a kind is a
// byte here as in `kinds`, whose contracts answer for every byte.
fn goes_on(said: bool, kind: u8) -> bool
    ensures { result ≡ said || not (is_critical kind) }
{
    said || !is_critical(kind)
}

impl Run {
    // A byte written to the chips that listen to a call.
    fn wrote(self, call: Call, byte: u8, holds: &[u8]) -> Run
        requires { self.time.now + byte_most ≤ far }
        ensures { Goes holds.now 9 (only (listens call.address call.tick) (takes byte)) self result }
    {
        let time = self.time.symbols(9, holds);
        let chips = all_take(self.chips, call, byte);
        Run { time, chips }
    }

    // A byte read from the chips that listen to a call.
    fn sent(self, call: Call, holds: &[u8]) -> Run
        requires { self.time.now + byte_most ≤ far }
        ensures { Goes holds.now 9 (only (listens call.address call.tick) steps) self result }
    {
        Run {
            time: self.time.symbols(9, holds),
            chips: all_send(self.chips, call),
        }
    }

    // START, with which this time has come: every chip drops its latch.
    fn started(self, time: Time) -> Run
        ensures time { result.time ≡ time }
        ensures chips { Becomes (does starts) self.chips result.chips }
    {
        Run {
            time,
            chips: all_start(self.chips),
        }
    }

    // The bytes of a write.
    fn writes(
        self,
        call: Call,
        place: Place,
        count: u8,
        list: &[u8],
        holds: &[u8],
        memory: &[u8],
        results: &mut [u8],
    ) -> Run
        requires { Sound self memory.now × (self.time.now + byte_most * count ≤ far) × Within place }
        ensures { Comes holds.now memory.now results.new
            (writes_all (listens call.address call.tick) place.slot 0 (bytes_at count list.now (place.at + 3)) (world_of self holds.now memory.now results.old))
            (self.time.now + byte_most * count) result }
    {
        let mut run = self;
        for i in 0..count {
            let byte = byte_at(list, place.at + 3 + i as usize);
            run = run.wrote(call, byte, holds);
            put_at(results, place.slot + 1, i + 1);
        }
        run
    }

    // The bytes of a read. How many follow the first is the quota's to say.
    fn reads(
        self,
        call: Call,
        place: Place,
        quota: Quota,
        holds: &[u8],
        memory: &[u8],
        results: &mut [u8],
    ) -> Run
        requires { Sound self memory.now × (self.time.now + bytes_most ≤ far) × Within place × Few quota }
        ensures { Comes holds.now memory.now results.new
            (carried (listens call.address call.tick) place.slot (get quota) (world_of self holds.now memory.now results.old))
            (self.time.now + bytes_most) result }
    {
        let first = value_of(self.chips, call, memory);
        let more = quota.follow(first);
        let mut run = self.sent(call, holds);
        note_read(quota, 0, first, place.slot, results);
        let mut left = quota;
        for i in 0..more {
            left = left.remain(more - (i + 1));
            let byte = value_of(run.chips, call, memory);
            run = run.sent(call, holds);
            note_read(left, i + 1, byte, place.slot, results);
        }
        run
    }

    // The call of the message at a place.
    fn call(self, place: Place, list: &[u8], holds: &[u8]) -> Call
        requires { self.time.now + byte_most ≤ far }
        ensures address { result.address ≡ get_or list.now place.at 0 }
        ensures tick { result.tick ≡ (symbols 8 (time_of self.time holds.now)).now }
    {
        Call {
            address: byte_at(list, place.at),
            tick: self.time.symbols(8, holds).now,
        }
    }

    // Does a chip answer to the message at a place?
    fn answered(self, place: Place, list: &[u8], holds: &[u8]) -> bool
        requires { self.time.now + byte_most ≤ far }
        ensures { (m l : List ℕ) → result ≡ answered (slot_of list.now place) (world_of self holds.now m l) }
    {
        any_listens(self.chips, self.call(place, list, holds))
    }

    // The message at a place, after its START.
    fn message(
        self,
        said: bool,
        place: Place,
        list: &[u8],
        holds: &[u8],
        memory: &[u8],
        results: &mut [u8],
    ) -> Run
        requires { Sound self memory.now × (self.time.now + message_most ≤ far) × Within place }
        ensures { Comes holds.now memory.now results.new
            (message_if (slot_of list.now place) said (world_of self holds.now memory.now results.old))
            (self.time.now + message_most) result }
    {
        let run = Run {
            time: self.time.symbols(9, holds),
            ..self
        };
        if !said {
            return run;
        }
        let call = self.call(place, list, holds);
        let kind = byte_at(list, place.at + 1);
        let asked = byte_at(list, place.at + 2);
        put_at(results, place.slot, 1);
        if is_write(kind) {
            let count = data_of(kind, asked);
            run.writes(call, place, count, list, holds, memory, results)
        } else {
            run.reads(call, place, quota_of(kind, asked), holds, memory, results)
        }
    }

    // A message and those after it. A critical one that is not answered is the last: what comes after it may rest on its bytes.
    fn messages(
        self,
        first: Place,
        others: u8,
        list: &[u8],
        holds: &[u8],
        memory: &[u8],
        results: &mut [u8],
    ) -> Run
        requires { Sound self memory.now × (self.time.now + messages_most ≤ far) × (first.at ≤ 131072) × (first.slot ≤ 137438953472) }
        ensures { Comes holds.now memory.now results.new
            (messages (slots_at others list.now (beyond list.now first)) (slot_of list.now first) (world_of self holds.now memory.now results.old))
            (self.time.now + messages_most) result }
    {
        let mut run = self;
        let mut place = first;
        let mut left = others;
        // Stays: a START stands between two messages and after none, so the test is in the middle; a `for` would have the message a second time.
        loop {
            let said = run.answered(place, list, holds);
            run = run.message(said, place, list, holds, memory, results);
            if left == 0 {
                return run;
            }
            let kind = byte_at(list, place.at + 1);
            if !goes_on(said, kind) {
                return run;
            }
            run = run.started(run.time.symbol(holds));
            place = beyond(list, place);
            left -= 1;
        }
    }

    // STOP, after which the outcome is 0.
    fn closes(
        self,
        top: usize,
        asked: u16,
        holds: &[u8],
        memory: &mut [u8],
        results: &mut [u8],
    ) -> Run
        requires { Sound self memory.old × (self.time.now + symbol_most ≤ far) }
        ensures { Comes holds.now memory.new results.new
            (closes asked top (world_of self holds.now memory.old results.old))
            (self.time.now + symbol_most) result }
    {
        let end = self.time.symbol(holds);
        let chips = all_stop(self.chips, end.now, asked, memory);
        put_at(results, top, 0);
        Run { time: end, chips }
    }

    // The transaction at a place: a wait, the first START, its messages, and STOP.
    fn transaction(
        self,
        place: Place,
        list: &[u8],
        holds: &[u8],
        asked: u16,
        memory: &mut [u8],
        results: &mut [u8],
    ) -> Run
        requires { Sound self memory.old × (self.time.now + transaction_most ≤ far) × (place.at ≤ 65536) × (place.slot ≤ 68719476736) }
        ensures { Comes holds.now memory.new results.new
            (transaction asked (batch_at list.now place) (world_of self holds.now memory.old results.old))
            (self.time.now + transaction_most) result }
    {
        let low = byte_at(list, place.at + 1);
        let high = byte_at(list, place.at + 2);
        let wait = u16::from_le_bytes([low, high]);
        let begun = self.started(self.time.pass(usize::from(wait) + 4, holds));
        let sent = begun.messages(
            opened(place),
            others(list, place),
            list,
            holds,
            memory,
            results,
        );
        sent.closes(place.slot, asked, holds, memory, results)
    }

    // All transactions of a list.
    pub fn transactions(
        self,
        list: &[u8],
        holds: &[u8],
        asked: u16,
        memory: &mut [u8],
        results: &mut [u8],
    ) -> Run
        requires { Sound self memory.old × (self.time.now ≤ 0) × (length list.now ≤ most_bytes) }
        ensures { Comes holds.now memory.new results.new
            (transactions asked (batches_at (suc (length list.now)) list.now (record { at = 0; slot = 0 })) (world_of self holds.now memory.old results.old))
            far result }
    {
        let mut run = self;
        let mut place = Place { at: 0, slot: 0 };
        // Stays: it counts no index, since how far one transaction takes is the list's to say.
        while place.at < list.len() {
            run = run.transaction(place, list, holds, asked, memory, results);
            place = next_batch(list, place);
        }
        run
    }
}

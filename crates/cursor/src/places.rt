// Where the end of a symbol takes the cursor, what it notes, and which symbol comes next.
ghost use Rattle.std.specs.Prelude.{◌≡◌, ◌+◌};
ghost use Rattle.symbols.specs.Ticks.{enter};
ghost use Rattle.cursor.specs.Cursor.{acts, carries_on, nowhere, address_at, data_at, passed, passed_all, goes_on, refused_by, puts_on, gets_on, carries_out, opens_at, step_of, note_of, ask_of};

use crate::{Act, Cursor};
use kinds::{Quota, is_critical, is_write, quota_of};
use lent::{byte_at, put_at};
use lines::{bit_at, shifted};
use orders::{room_at, size_at};
use symbols::{Begin, Phase, Symbol};

// Places are kept modulo this; the places of an accepted list are far below it.
const WRAP: usize = 4294967296;

impl Cursor {
    fn acts(self, act: Act) -> Cursor
        ensures { result ≡ acts act self }
    {
        Cursor { act, ..self }
    }

    fn carries_on(self, act: Act, count: u8, more: u8) -> Cursor
        ensures { result ≡ carries_on act count more self }
    {
        Cursor {
            act,
            count,
            more,
            ..self
        }
    }

    pub fn nowhere() -> Cursor
        ensures { result ≡ nowhere }
    {
        Cursor {
            act: Act::Finishes,
            at: 0,
            left: 0,
            slot: 0,
            top: 0,
            count: 0,
            more: 0,
        }
    }

    // On to the message after this one.
    #[tactic(auto, unfolding(crate::specs::Cursor::wrap))]
    fn passed(self, list: &[u8]) -> Cursor
        ensures { result ≡ passed list.now self }
    {
        let size = size_at(list, self.at);
        let room = room_at(list, self.at);
        Cursor {
            at: ((self.at as usize + size) % WRAP) as u32,
            left: self.left.saturating_sub(1),
            slot: ((self.slot as usize + room) % WRAP) as u32,
            ..self
        }
    }

    // Over the message under way and those after it: a refused one leaves them unsent, and their slots as they are.
    fn passed_all(self, list: &[u8]) -> Cursor
        ensures { result ≡ passed_all list.now (self.left + 1) self }
    {
        let mut cursor = self;
        for _ in 0..=self.left {
            cursor = cursor.passed(list);
        }
        cursor
    }

    // The message is over: a repeated START and the next one, or STOP.
    #[tactic(auto, unfolding(crate::specs::Cursor::goes_on))]
    fn goes_on(self, list: &[u8]) -> Cursor
        ensures { result ≡ goes_on list.now self }
    {
        if self.left == 0 {
            self.acts(Act::Closes)
        } else {
            self.passed(list).acts(Act::Reopens)
        }
    }

    // After a 1: a critical message ends the transaction, a non-critical one lets the next follow.
    #[tactic(auto, unfolding(crate::specs::Cursor::refused_by))]
    fn refused_by(self, list: &[u8]) -> Cursor
        ensures { result ≡ refused_by list.now self }
    {
        if is_critical(byte_at(list, self.at as usize + 1)) {
            self.acts(Act::Closes)
        } else {
            self.goes_on(list)
        }
    }

    #[tactic(auto, unfolding(crate::specs::Cursor::puts_on))]
    fn puts_on(self, list: &[u8], n: u8, count: u8) -> Cursor
        ensures { result ≡ puts_on list.now n count self }
    {
        if n == 0 {
            self.goes_on(list)
        } else {
            self.carries_on(Act::Puts(7), count, n - 1)
        }
    }

    #[tactic(auto, unfolding(crate::specs::Cursor::gets_on))]
    fn gets_on(self, list: &[u8], n: u8, quota: Quota) -> Cursor
        ensures { result ≡ gets_on list.now n quota self }
    {
        if n == 0 {
            self.goes_on(list)
        } else {
            self.carries_on(
                Act::Gets(7, 0, quota.remain(n - 1)),
                self.count % 255 + 1,
                0,
            )
        }
    }

    // The address was acknowledged.
    #[tactic(auto, unfolding(crate::specs::Cursor::carries_out))]
    fn carries_out(self, list: &[u8]) -> Cursor
        ensures { result ≡ carries_out list.now self }
    {
        let at = self.at as usize;
        let kind = byte_at(list, at + 1);
        let n = byte_at(list, at + 2);
        if is_write(kind) {
            self.puts_on(list, n, 0)
        } else {
            self.carries_on(Act::Gets(7, 0, quota_of(kind, n)), 0, 0)
        }
    }

    // The transaction at a place, with its results from `top` on; or the list's end.
    #[tactic(auto, unfolding(crate::specs::Cursor::opens_at, crate::specs::Cursor::wrap))]
    pub fn opens_at(list: &[u8], at: u32, top: u32) -> Cursor
        ensures { result ≡ opens_at list.now at top }
    {
        let place = at as usize;
        if place < list.len() {
            let low = byte_at(list, place + 1);
            let high = byte_at(list, place + 2);
            Cursor {
                act: Act::Opens(u32::from(u16::from_le_bytes([low, high]))),
                at: ((place + 3) % WRAP) as u32,
                left: list[place].saturating_sub(1),
                slot: ((top as usize + 1) % WRAP) as u32,
                top,
                count: 0,
                more: 0,
            }
        } else {
            Cursor::nowhere()
        }
    }

    // The symbol has ended, in which SDA was seen as v.
    #[tactic(auto, unfolding(crate::specs::Cursor::step_of))]
    pub fn step(self, list: &[u8], v: bool) -> Cursor
        ensures { result ≡ step_of list.now v self }
    {
        match self.act {
            Act::Opens(_) | Act::Reopens => self.acts(Act::Addresses(7)),
            Act::Closes => {
                let after = self.passed_all(list);
                Cursor::opens_at(list, after.at, after.slot)
            }
            Act::Finishes => self,
            Act::Addresses(0) => self.acts(Act::Hears),
            Act::Addresses(k) => self.acts(Act::Addresses(k - 1)),
            Act::Hears | Act::Awaits if v => self.refused_by(list),
            Act::Hears => self.carries_out(list),
            Act::Awaits => self.puts_on(list, self.more, self.count % 255 + 1),
            Act::Puts(0) => self.acts(Act::Awaits),
            Act::Puts(k) => self.acts(Act::Puts(k - 1)),
            Act::Gets(0, x, quota) => self.acts(Act::Answers(shifted(x, v), quota)),
            Act::Gets(k, x, quota) => self.acts(Act::Gets(k - 1, shifted(x, v), quota)),
            Act::Answers(x, quota) => self.gets_on(list, quota.follow(x), quota),
        }
    }

    // What the end of the symbol notes in the result area.
    #[tactic(auto, unfolding(crate::specs::Cursor::note_of, orders::specs::Marks::note, orders::specs::Marks::read_mark))]
    pub fn note(self, list: &[u8], v: bool, area: &mut [u8])
        ensures { area.new ≡ (note_of list.now v self (record { area = area.old })).area }
    {
        let slot = self.slot as usize;
        let count = self.count % 255;
        match self.act {
            Act::Closes => put_at(area, self.top as usize, 0),
            Act::Hears if !v => put_at(area, slot, 1),
            Act::Awaits if !v => put_at(area, slot + 1, count + 1),
            Act::Answers(x, _) => {
                put_at(area, slot + 2 + count as usize, x);
                put_at(area, slot + 1, count + 1);
            }
            _ => {}
        }
    }

    // The phase in which its symbol begins.
    #[tactic(auto, unfolding(crate::specs::Cursor::ask_of))]
    pub fn enter(self, list: &[u8]) -> Phase
        ensures { result ≡ enter (ask_of list.now self) }
    {
        match self.act {
            Act::Opens(0) => Phase::Zero(Symbol::Start(Begin::First)),
            Act::Opens(wait) => Phase::Waiting(wait - 1),
            Act::Reopens => Phase::Zero(Symbol::Start(Begin::Repeated)),
            Act::Closes => Phase::Zero(Symbol::Stop),
            Act::Finishes => Phase::Over(None),
            Act::Addresses(k) => Phase::Zero(Symbol::Sent(bit_at(k, self.address(list)))),
            Act::Puts(k) => Phase::Zero(Symbol::Sent(bit_at(k, self.data(list)))),
            Act::Hears | Act::Awaits | Act::Gets(_, _, _) => Phase::Zero(Symbol::Received),
            // 0 to each byte read but the last, which gets 1: a chip whose last byte is acknowledged sends on, and may hold SDA so that no STOP can form.
            Act::Answers(x, quota) => Phase::Zero(Symbol::Sent(quota.follow(x) == 0)),
        }
    }

    // The address byte: address × 2, plus 1 for a read.
    fn address(self, list: &[u8]) -> u8
        ensures { result ≡ address_at list.now self.at }
    {
        let at = self.at as usize;
        let kind = byte_at(list, at + 1);
        shifted(byte_at(list, at), !is_write(kind))
    }

    // The data byte under way.
    fn data(self, list: &[u8]) -> u8
        ensures { result ≡ data_at list.now self }
    {
        byte_at(list, self.at as usize + 3 + self.count as usize)
    }
}

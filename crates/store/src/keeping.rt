// What a chip keeps from byte to byte, and the four ways in which it changes: a byte taken, a byte sent, START, STOP.
ghost use Rattle.std.specs.Prelude.{◌≡◌, List, ℕ, ◌%◌};
ghost use Rattle.store.specs.Pages.{Shape, geometry_of, page_start, page_step, read_step, pointer_of};
ghost use Rattle.store.specs.Keeping.{geo, kept_of, takes_at, byte_now, stepped, emptied, stored, stops, kept_at};

use crate::{Model, Store};
use lent::{byte_at, put_at};

impl Model {
    // Bytes in all.
    #[tactic(auto, using(crate::proofs::Pages::size_shape))]
    pub fn size(self) -> u16
        ensures { Shape 1 4096 result (geometry_of self).size }
    {
        match self {
            Model::Large => 4096,
        }
    }

    // Bytes in a page.
    #[tactic(auto, using(crate::proofs::Pages::page_shape))]
    pub fn page(self) -> u16
        ensures { Shape 1 32 result (geometry_of self).page }
    {
        match self {
            Model::Large => 32,
        }
    }

    // Pointer bytes in a write.
    #[tactic(auto, using(crate::proofs::Pages::lead_shape))]
    pub fn lead(self) -> u8
        ensures { Shape 1 2 result (geometry_of self).lead }
    {
        match self {
            Model::Large => 2,
        }
    }

    // The place in its page.
    pub fn place(self, p: u16) -> usize
        ensures { Shape 0 31 result (p % (geometry_of self).page) }
    {
        (p % self.page()) as usize
    }

    // The first byte of the page.
    #[tactic(auto, unfolding(crate::specs::Pages::page_start))]
    pub fn page_start(self, p: u16) -> u16
        ensures { result ≡ page_start (geometry_of self) p }
    {
        let page = self.page();
        p / page * page
    }

    // After a written byte: round in the page. Carried into the next page, it would overwrite another film's bytes.
    #[tactic(auto, using(crate::proofs::Pages::step_reckoned))]
    pub fn page_step(self, p: u16) -> u16
        ensures { result ≡ page_step (geometry_of self) p }
    {
        let page = self.page();
        p / page * page + (p % page + 1) % page
    }

    // After a byte sent: round in the whole memory. Wrapped at the page's end, a long read would repeat one page.
    #[tactic(auto, unfolding(crate::specs::Pages::read_step))]
    pub fn read_step(self, p: u16) -> u16
        ensures { result ≡ read_step (geometry_of self) p }
    {
        ((p as u32 + 1) % self.size() as u32) as u16
    }

    // The pointer of two bytes, the bits past the size ignored.
    #[tactic(auto, unfolding(crate::specs::Pages::pointer_of))]
    pub fn pointer_of(self, high: u8, low: u8) -> u16
        ensures { result ≡ pointer_of (geometry_of self) high low }
    {
        u16::from_be_bytes([high, low]) % self.size()
    }
}

impl Store {
    // Before the first tick.
    #[tactic(auto, unfolding(crate::specs::Keeping::blank_latch))]
    pub fn at_rest(name: u8, model: Model, pointer: u16) -> Store
        ensures { (m : List ℕ) → kept_of result m ≡ kept_at name model pointer m }
    {
        Store {
            name,
            model,
            pointer,
            want: 0,
            high: 0,
            latched: false,
            latch: [None; 32],
        }
    }

    // A data byte: the last one for a place of the page wins.
    fn latches(mut self, byte: u8) -> Store
        ensures { result ≡ takes_at 0 byte self }
    {
        self.latch[self.model.place(self.pointer)] = Some(byte);
        Store {
            pointer: self.model.page_step(self.pointer),
            want: 0,
            high: 0,
            latched: true,
            ..self
        }
    }

    // A written byte: first the pointer's, then data.
    pub fn takes(self, byte: u8) -> Store
        ensures { result ≡ takes_at self.want byte self }
    {
        match self.want {
            0 => self.latches(byte),
            1 => Store {
                pointer: self.model.pointer_of(self.high, byte),
                want: 0,
                high: 0,
                ..self
            },
            _ => Store {
                want: self.want - 1,
                high: byte,
                ..self
            },
        }
    }

    // The byte that is sent.
    #[tactic(auto, unfolding(crate::specs::Keeping::byte_now))]
    pub fn byte_now(self, mem: &[u8]) -> u8
        ensures { result ≡ byte_now (kept_of self mem.now) }
    {
        byte_at(mem, self.pointer as usize)
    }

    // A byte was sent.
    pub fn steps(self) -> Store
        ensures { result ≡ stepped self }
    {
        Store {
            pointer: self.model.read_step(self.pointer),
            ..self
        }
    }

    // The latch is empty, yet the pointer stays moved.
    #[tactic(auto, unfolding(crate::specs::Keeping::blank_latch))]
    fn emptied(self, want: u8) -> Store
        ensures { result ≡ emptied want self }
    {
        Store {
            want,
            high: 0,
            latched: false,
            latch: [None; 32],
            ..self
        }
    }

    // START stores nothing: a write that a repeated START breaks off is dropped.
    pub fn starts(self) -> Store
        ensures { result ≡ emptied (geo self).lead self }
    {
        self.emptied(self.model.lead())
    }

    // The latched bytes go to their page.
    fn stores(self, mem: &mut [u8])
        ensures { mem.new ≡ stored (geo self).page (page_start (geo self) self.pointer) self.latch mem.old }
    {
        let page = self.model.page() as usize;
        let start = self.model.page_start(self.pointer) as usize;
        for place in 0..page {
            if let Some(byte) = self.latch[place] {
                put_at(mem, start + place, byte);
            }
        }
    }

    // STOP: the latch is stored if a store is due, and empty then.
    #[tactic(auto, unfolding(crate::specs::Keeping::stops))]
    pub fn stops(self, due: bool, mem: &mut [u8]) -> Store
        ensures { kept_of result mem.new ≡ stops due (kept_of self mem.old) }
    {
        if due {
            self.stores(mem);
        }
        self.emptied(0)
    }
}

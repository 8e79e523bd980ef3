//! What a device is to carry out, in order.
ghost use Rattle.std.specs.Prelude.{◌≡◌, ◌≤◌, ◌<◌, ◌+◌, ◌*◌, ◌++◌, [], ◌∷◌, length, take, drop};
ghost use Rattle.std.specs.Prelude.{None, IfOk, IfSome, vec_len};
ghost use Rattle.window.specs.Ring.{call_by, call_of};
ghost use Rattle.window.specs.Runs.{AsksFirst};

use crate::ask::DeviceAsk;
use crate::call::{DeviceCall, SectorWrite};
use crate::ring::{copy_first, place_of, run_in};
use crate::sectors::{SECTOR, Sectors};
use std::alloc::{AllocError, Global};
use std::marker::Model;

/// What is to be done.
#[derive(Clone, Copy)]
pub(crate) enum Kind {
    /// The block is to be written to this sector.
    Write(u64),
    Flush,
}

/// A call as it waits, and the block beside it.
#[derive(Clone, Copy)]
pub(crate) struct Place<'a> {
    pub kind: Kind,
    pub block: &'a [u8; 512],
}

impl Place<'_> {
    /// The call.
    pub(crate) fn call(&self) -> DeviceCall
        ensures { result ≡ call_of self.now }
    {
        match self.kind {
            Kind::Write(sector) => DeviceCall::Write(SectorWrite {
                sector,
                block: *self.block,
            }),
            Kind::Flush => DeviceCall::Flush,
        }
    }
}

/// The calls that wait: a ring of what is to be done, and beside it one of the blocks, so that
/// those of neighbours leave by one copy.
#[derive(Drop)]
pub(crate) struct Outbox {
    kinds: Vec<Kind>,
    blocks: Sectors,
    head: usize,
    count: usize,
    ghost whole: { length blocks.bytes.items ≡ 512 * vec_len kinds },
    ghost starts: { head ≤ vec_len kinds },
    ghost fits: { count ≤ vec_len kinds },
}

impl Model for Outbox {
    ghost use Rattle.window.specs.Queue.{Queue};

    ghost Value = { Queue };

    ghost use Rattle.window.specs.QueueView.{view_of};

    ghost view = { view_of };
}

impl Outbox {
    /// Room for so many calls, of which none waits.
    pub(crate) fn with_room(alloc: Global, room: usize) -> Result<Outbox, AllocError>
        ensures items { IfOk result (λ q. q.items ≡ []) }
        ensures room { IfOk result (λ q. q.room ≡ room) }
    {
        let Some(size) = room.checked_mul(SECTOR) else {
            return Err(AllocError);
        };
        let bytes = vec![in alloc; 0u8; size]?;
        Ok(Outbox {
            kinds: vec![in alloc; Kind::Flush; room]?,
            blocks: Sectors { bytes },
            head: 0,
            count: 0,
        })
    }

    /// How many wait.
    pub(crate) fn len(&self) -> usize
        ensures { result ≡ length self.now.items }
    {
        self.count
    }

    /// For how many there is room.
    pub(crate) fn room(&self) -> usize
        ensures { result ≡ self.now.room }
    {
        self.kinds.len()
    }

    /// The one that waits at this place.
    pub(crate) fn get(&self, at: usize) -> Option<Place<'_>>
        ensures some { IfSome result (λ place. take (at + 1) self.now.items
            ≡ take at self.now.items ++ call_of place ∷ []) }
        ensures none { result ≡ None → length self.now.items ≤ at }
    {
        if at >= self.count {
            return None;
        }
        let place = place_of(self.kinds.len(), self.head, at);
        let bytes = &self.blocks.bytes[place * SECTOR..place * SECTOR + SECTOR];
        let Ok(block) = <&[u8; 512]>::try_from(bytes) else {
            return None;
        };
        Some(Place {
            kind: self.kinds[place],
            block,
        })
    }

    /// What a device is to do for those that wait first. The bytes of writes go to the front of the
    /// buffer.
    pub(crate) fn ask(&self, to: &mut [u8]) -> DeviceAsk
        ensures { AsksFirst self.now.items to.old result to.new }
    {
        if self.count == 0 {
            return DeviceAsk::Nothing;
        }
        match self.kinds[place_of(self.kinds.len(), self.head, 0)] {
            Kind::Write(first) => {
                let most = self.count.min(to.len() / SECTOR);
                let count = run_in(&self.kinds, self.head, most, first);
                copy_first(&self.blocks.bytes, self.head, count, to);
                DeviceAsk::Write { first, count }
            }
            Kind::Flush => DeviceAsk::Flush,
        }
    }

    /// The first one leaves, where one waits.
    #[inline]
    pub(crate) fn pop_front(&mut self)
        ensures { self.new ≡ record self.old { items = drop 1 self.old.items } }
    {
        if self.count == 0 {
            return;
        }
        self.head = place_of(self.kinds.len(), self.head, 1);
        self.count -= 1;
    }

    /// This waits behind all others, with this block.
    #[inline]
    pub(crate) fn push(&mut self, kind: Kind, block: &[u8; 512])
        requires { length self.old.items < self.old.room }
        ensures { self.new ≡ record self.old {
          items = self.old.items ++ call_by kind block.now ∷ [];
        } }
    {
        let place = place_of(self.kinds.len(), self.head, self.count);
        self.blocks.store(place as u64, block);
        self.kinds[place] = kind;
        self.count += 1;
    }
}

ghost use Rattle.std.specs.Prelude.{◌≡◌, [], ◌≤◌, ◌+◌, ◌++◌, length, IfOk, vec_capacity, IsTrue, ◌↔◌};

use std::alloc::{AllocError, Global};

/// Bytes in room that was taken before, so that adding a piece that fits takes no memory.
#[derive(Drop)]
pub struct Buffer {
    pub bytes: Vec<u8>,
    pub room: usize,
    ghost within: { length bytes.items ≤ room },
    ghost reserved: { room ≤ vec_capacity bytes },
}

impl Buffer {
    pub fn new(alloc: Global, room: usize) -> Result<Buffer, AllocError>
        ensures bytes { IfOk result (λ b. b.bytes.items ≡ []) }
        ensures room { IfOk result (λ b. b.room ≡ room) }
    {
        Ok(Buffer {
            bytes: Vec::with_capacity(alloc, room)?,
            room,
        })
    }

    pub fn fits(&self, piece: &[u8]) -> bool
        ensures { IsTrue result ↔ length self.now.bytes.items + length piece.now ≤ self.now.room }
    {
        piece.len() <= self.room - self.bytes.len()
    }

    pub fn add(&mut self, piece: &[u8])
        requires { length self.old.bytes.items + length piece.now ≤ self.old.room }
        ensures bytes { self.new.bytes.items ≡ self.old.bytes.items ++ piece.now }
        ensures room { self.new.room ≡ self.old.room }
    {
        self.bytes.extend_from_slice(piece).unwrap();
    }

    pub fn clear(&mut self)
        ensures bytes { self.new.bytes.items ≡ [] }
        ensures room { self.new.room ≡ self.old.room }
    {
        self.bytes.clear();
    }
}

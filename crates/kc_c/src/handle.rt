//! What C keeps of a client.

ghost use Rattle.std.specs.Prelude.{◌≡◌, ◌==◌, false};
ghost use Rattle.kc_c.specs.declared.client.Client.{Client};

use crate::client::Client;
use std::alloc::Global;
use std::marker::{Model, Send};

/// A handle: 16 bytes of C's, all zero at first. While `held` is 1 it owns the client at `at`, else nothing. C may move it between
/// calls, and neither copies it nor writes to it.
#[repr(C)]
#[derive(Drop)]
pub struct KcasCaller {
    held: u32,
    at: *mut u8,
    ghost value: { Client },
}

unsafe impl Send for KcasCaller {}

impl Model for KcasCaller {
    ghost use Rattle.kc_c.specs.Held.{chunk, held_while};
    ghost use Rattle.kc_c.specs.contracts.client.Client.{the_row};
    ghost use Rattle.std.specs.Box.Ownership.{box_owns};

    ghost also_owns = { λ h. held_while h.held (box_owns chunk the_row h.at h.value) };
}

impl KcasCaller {
    /// Whether it holds a client.
    pub(crate) fn is_open(&mut self) -> bool
        ensures value { result ≡ (self.old.held == 1) }
        ensures same { self.new ≡ self.old }
    {
        self.held == 1
    }

    /// Takes out what it holds. It is closed until that is put back.
    pub(crate) fn take(&mut self, alloc: Global) -> Box<Client, Global>
        requires { self.old.held ≡ 1 }
        ensures value { result.value ≡ self.old.value }
        ensures held { self.new.held ≡ 0 }
    {
        self.held = 0;
        unsafe { Box::from_raw(alloc, self.at as *mut Client) }
    }

    /// Holds this client from now on.
    pub(crate) fn put(&mut self, client: Box<Client, Global>)
        ensures held { self.new.held ≡ 1 }
        ensures value { self.new.value ≡ client.value }
    {
        self.at = Box::into_raw(client) as *mut u8;
        self.held = 1;
    }

    /// Lets go of what it holds, if anything.
    pub(crate) fn close(&mut self, alloc: Global)
        ensures { (self.new.held == 1) ≡ false }
    {
        if self.is_open() {
            drop(self.take(alloc));
        }
    }
}

//! A store on the heap, behind a pointer that does not name its type.
ghost use Rattle.std.specs.Prelude.{◌≡◌, Bool, List, true, false};
ghost use Rattle.txc_rows.specs.declared.version.Versioned.{Versioned as VersionedValue};

use crate::store::Store;
use std::alloc::Global;
use std::marker::Model;
use std::{mem, ptr};
use txc_base::Parts;

/// A pointer to a store, or to none.
///
/// Each function of the crates above has the layout of every type that its own types reach, and a store reaches
/// some hundred types of SQLite. So the pointer is to a byte.
pub(crate) struct StoreSlot {
    ptr: *mut u8,
    alloc: Global,
    ghost is_full: { Bool },
    ghost value: { List VersionedValue },
}

impl Drop for StoreSlot {
    /// A full slot must not be dropped: its store would never be freed.
    fn drop(self)
        requires { self.is_full ≡ false }
    {
        let StoreSlot { ptr: _, alloc: _ } = self;
    }
}

impl Model for StoreSlot {
    ghost use Rattle.std.specs.Box.Ownership.{box_owns};
    ghost use Rattle.txc_rows.specs.HandleOwnership.{when};
    ghost use Rattle.txc_rows.specs.contracts.store.Store.{the_row};
    ghost use Rattle.std.specs.contracts.impls.GlobalAllocator.TheImpl.{ghosts};

    ghost also_owns = { λ n. when n.is_full (box_owns (ghosts.dealloc_token n.alloc) the_row n.ptr n.value) };
}

impl StoreSlot {
    fn empty(alloc: Global) -> StoreSlot
        ensures { result.is_full ≡ false }
    {
        StoreSlot {
            ptr: ptr::null_mut(),
            alloc,
        }
    }

    fn of_parts(parts: Parts<Store, Global>) -> StoreSlot
        ensures { (result.is_full ≡ true) × (result.value ≡ parts.value) }
    {
        let Parts { ptr, alloc } = parts;
        StoreSlot {
            ptr: ptr as *mut u8,
            alloc,
        }
    }

    fn into_parts(self) -> Parts<Store, Global>
        requires { self.is_full ≡ true }
        ensures { result.value ≡ self.value }
    {
        let StoreSlot { ptr, alloc } = self;
        Parts {
            ptr: ptr as *mut Store,
            alloc,
        }
    }

    /// Makes the slot of a store.
    pub(crate) fn of(store: Box<Store, Global>) -> StoreSlot
        ensures { (result.is_full ≡ true) × (result.value ≡ store.value) }
    {
        StoreSlot::of_parts(Parts::of(store))
    }

    /// Returns the store.
    pub(crate) fn into_store(self) -> Box<Store, Global>
        requires { self.is_full ≡ true }
        ensures { result.value ≡ self.value }
    {
        self.into_parts().into_box()
    }

    /// Takes the store out, and leaves the slot empty.
    pub(crate) fn take(&mut self, alloc: Global) -> Box<Store, Global>
        requires { self.old.is_full ≡ true }
        ensures store { result.value ≡ self.old.value }
        ensures after { self.new.is_full ≡ false }
    {
        mem::replace(self, StoreSlot::empty(alloc)).into_store()
    }

    /// Puts a store into an empty slot.
    pub(crate) fn put(&mut self, store: Box<Store, Global>)
        requires { self.old.is_full ≡ false }
        ensures { (self.new.is_full ≡ true) × (self.new.value ≡ store.value) }
    {
        *self = StoreSlot::of(store);
    }
}

// A store may go to another thread, and so may the slot that points to it.
unsafe impl Send for StoreSlot {}

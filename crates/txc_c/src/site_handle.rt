//! The handle of a site: a pointer to one on the heap.
ghost use Rattle.std.specs.Prelude.{◌≡◌, Bool, true, false, Some, None};
ghost use Rattle.txc_c.specs.Sites.{SiteValue};
ghost use Rattle.std.specs.Option.{option_map};

use crate::handle::crosses;
use crate::site::Site;
use std::alloc::Global;
use std::marker::Model;
use std::{mem, ptr};
use txc_base::Parts;

/// A pointer to a site, or to none.
#[repr(C)]
pub struct SiteSlot {
    ptr: *mut u8,
    alloc: Global,
    ghost is_full: { Bool },
    ghost value: { SiteValue },
}

impl Drop for SiteSlot {
    /// A full slot must not be dropped: its site would never be freed.
    fn drop(self)
        requires { self.is_full ≡ false }
    {
        let SiteSlot { ptr: _, alloc: _ } = self;
    }
}

impl Model for SiteSlot {
    ghost use Rattle.std.specs.Box.Ownership.{box_owns};
    ghost use Rattle.txc_rows.specs.HandleOwnership.{when};
    ghost use Rattle.txc_c.specs.contracts.site.Site.{the_row};
    ghost use Rattle.std.specs.contracts.impls.GlobalAllocator.TheImpl.{ghosts};

    ghost also_owns = { λ n. when n.is_full (box_owns (ghosts.dealloc_token n.alloc) the_row n.ptr n.value) };
}

impl SiteSlot {
    pub(crate) fn empty(alloc: Global) -> SiteSlot
        ensures { result.is_full ≡ false }
    {
        SiteSlot {
            ptr: ptr::null_mut(),
            alloc,
        }
    }

    pub(crate) fn of_parts(parts: Parts<Site, Global>) -> SiteSlot
        ensures { (result.is_full ≡ true) × (result.value ≡ parts.value) }
    {
        let Parts { ptr, alloc } = parts;
        SiteSlot {
            ptr: ptr as *mut u8,
            alloc,
        }
    }

    pub(crate) fn into_parts(self) -> Parts<Site, Global>
        requires { self.is_full ≡ true }
        ensures { result.value ≡ self.value }
    {
        let SiteSlot { ptr, alloc } = self;
        Parts {
            ptr: ptr as *mut Site,
            alloc,
        }
    }
}

/// The handle of a site, or of none.
#[repr(C)]
pub struct TxcSite {
    slot: SiteSlot,
    is_open: bool,
    ghost full: { is_open ≡ slot.is_full },
}

impl Drop for TxcSite {
    /// An open handle must not be dropped.
    fn drop(self)
        requires { self.is_open ≡ false }
    {
        let TxcSite {
            slot: _,
            is_open: _,
        } = self;
    }
}

impl TxcSite {
    ghost use Rattle.txc_c.specs.HeldSite.{site_held};

    /// Returns its slot, and whether that has a site.
    pub(crate) fn into_slot(self) -> (SiteSlot, bool)
        ensures slot { result.0 ≡ self.slot }
        ensures open { result.1 ≡ self.is_open }
        ensures full { result.1 ≡ result.0.is_full }
    {
        let TxcSite { slot, is_open } = self;
        (slot, is_open)
    }

    /// Returns `true` if it has a site.
    pub(crate) fn is_open(&self) -> bool
        ensures { result ≡ self.now.is_open }
    {
        self.is_open
    }

    pub(crate) fn closed(alloc: Global) -> TxcSite
        ensures { site_held result ≡ None }
    {
        TxcSite {
            slot: SiteSlot::empty(alloc),
            is_open: false,
        }
    }

    /// Takes the site out, if there is one.
    pub(crate) fn take(&mut self, alloc: Global) -> Option<Box<Site, Global>>
        ensures site { option_map (λ site. site.value) result ≡ site_held self.old }
        ensures after { site_held self.new ≡ None }
    {
        let (slot, is_open) = mem::replace(self, TxcSite::closed(alloc)).into_slot();
        if is_open {
            Some(slot.into_parts().into_box())
        } else {
            None
        }
    }

    /// Puts a site into an empty handle.
    pub(crate) fn put(&mut self, site: Box<Site, Global>)
        requires { site_held self.old ≡ None }
        ensures { site_held self.new ≡ Some site.value }
    {
        *self = TxcSite {
            slot: SiteSlot::of_parts(Parts::of(site)),
            is_open: true,
        };
    }
}

// A site may go to another thread, and so may the slot that points to it.
unsafe impl Send for SiteSlot {}

/// Shows that the handle of a site may go to another thread: this compiles only if that is proved. It does
/// nothing.
pub fn site_crosses(handle: &TxcSite) {
    crosses(handle);
}

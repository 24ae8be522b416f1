//! In which order the places of a list were last touched.

ghost use Rattle.std.specs.Prelude.{◌≡◌, ◌≢◌, ◌-◌, ◌<◌, [], Some, IfOk, IfSome, IfNone, OnOk};
ghost use Rattle.lucid_store.specs.Touches.{IsOrderOf, IsFirstGone, last_item, touched_at, up_to};
ghost use Rattle.lucid_store.specs.Ordered.{HasRoom, MayTouch, IsFirstPlace};

use futures::util::linked_list::LinkedLists;
use std::alloc::{AllocError, Global};
use std::marker::Model;

/// The places 0, 1, .. of some entries in the order of their last touches, the latest last.
#[derive(Drop)]
pub(crate) struct Order {
    // One list.
    places: LinkedLists,
    count: usize,
    // The place touched last, if there is one.
    latest: usize,
}

impl Model for Order {
    ghost use Rattle.lucid_store.specs.Touches.{Touches, touches_code, IsSoundOrder};
    ghost use Rattle.futures.specs.LinkedLists.{items, key_limit};

    ghost Value = { Touches };

    ghost coded = { touches_code };

    ghost view = { λ o. record { places = items o.places 0; count = o.count; room = key_limit o.places } };

    ghost invariant = { λ o. IsSoundOrder o.places o.count o.latest };
}

impl Order {
    // No places.
    fn make(alloc: Global) -> Result<Order, AllocError>
        ensures { IfOk result (λ order. (order.places ≡ []) × (order.count ≡ 0)) }
    {
        Ok(Order {
            places: LinkedLists::new(alloc, 1)?,
            count: 0,
            latest: 0,
        })
    }

    /// So many places, the first of them touched first.
    pub(crate) fn over(alloc: Global, count: usize) -> Result<Order, AllocError>
        ensures places { IfOk result (λ order. order.places ≡ up_to count) }
        ensures count { IfOk result (λ order. order.count ≡ count) }
        ensures order { IfOk result (λ order. IsOrderOf order.count order.places) }
    {
        let mut order = Order::make(alloc)?;
        for place in 0..count {
            order.reserve()?;
            order.touch(place);
        }
        Ok(order)
    }

    /// Makes room for one place more.
    // It is made up to a multiple of 64, so that most places find it there.
    pub(crate) fn reserve(&mut self) -> Result<(), AllocError>
        ensures places { self.new.places ≡ self.old.places }
        ensures count { self.new.count ≡ self.old.count }
        ensures room { OnOk result (HasRoom self.new) }
    {
        self.places.reserve_key(self.count / 64 * 64 + 63)
    }

    // A place of the list becomes the latest.
    fn bring(&mut self, place: usize)
        requires { place < self.old.count }
        ensures touched { self.new ≡ touched_at place self.old }
        ensures order { IsOrderOf self.new.count self.new.places }
    {
        if place == self.latest {
            return;
        }
        self.places.unlink(place);
        self.places.push_back(0, place);
        self.latest = place;
    }

    // A place more, which is the latest.
    fn add(&mut self)
        requires { HasRoom self.old }
        ensures touched { self.new ≡ touched_at self.old.count self.old }
        ensures order { IsOrderOf self.new.count self.new.places }
    {
        self.places.push_back(0, self.count);
        self.latest = self.count;
        self.count += 1;
    }

    /// Touches a place: one of those that are there, or the next one, for which there is room.
    pub(crate) fn touch(&mut self, place: usize)
        requires { MayTouch place self.old }
        ensures touched { self.new ≡ touched_at place self.old }
        ensures order { IsOrderOf self.new.count self.new.places }
    {
        if place < self.count {
            self.bring(place);
        } else {
            self.add();
        }
    }

    /// The place that was touched first, if the last place is the latest.
    pub(crate) fn first(&self) -> Option<usize>
        ensures first { IfSome result (λ place. IsFirstPlace place self.now) }
        ensures none { IfNone result (0 < self.now.count → last_item self.now.places ≢ Some (self.now.count - 1)) }
    {
        if self.count > 0 && self.latest == self.count - 1 {
            self.places.front(0)
        } else {
            None
        }
    }

    /// The place that was touched first goes. The last place, which is the latest, takes its number.
    pub(crate) fn remove_first(&mut self, place: usize)
        requires { IsFirstPlace place self.old }
        ensures gone { IsFirstGone place self.old self.new }
        ensures order { IsOrderOf self.new.count self.new.places }
    {
        self.places.unlink(place);
        self.count -= 1;
        if place == self.count {
            return;
        }
        self.places.unlink(self.count);
        self.places.push_back(0, place);
        self.latest = place;
    }
}

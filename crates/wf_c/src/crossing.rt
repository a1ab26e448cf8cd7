//! A path, a cell and the handle of either may be sent to another thread.

use crate::cell::held::HeldCell;
use crate::cell::slot::CellSlot;
use crate::held::Held;
use crate::slot::PathSlot;
use std::marker::Send;

fn is_sent<T: Send>() {}

fn paths_are_sent() {
    is_sent::<Held>();
    is_sent::<PathSlot>();
}

fn cells_are_sent() {
    is_sent::<HeldCell>();
    is_sent::<CellSlot>();
}

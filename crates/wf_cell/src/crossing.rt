//! A cell, its calls and their replies may be sent to another thread, so a gate may share a cell.

use crate::Cell;
use crate::machine::{Answered, Asking};

fn is_sent<T: Send + Drop>() {}

fn cell_is_sent() {
    is_sent::<Cell>();
    is_sent::<Asking>();
    is_sent::<Answered>();
}

//! The loads that a search found, in the order of their stations.
ghost use Rattle.std.specs.Prelude.{◌≡◌, ◌+◌, ◌<◌, ◌≤◌, List, [], ◌++◌, IfOk};
ghost use Rattle.line_rules.specs.Seats.{seated};
ghost use Rattle.station_search.specs.inner.Order.{fore_load, back_load};

use line_rules::{Frames, Load, Loads, Mode, OpenFrame};
use std::alloc::{AllocError, Global};

/// The frame's last load, where it stands at the front.
fn at_front(frame: &OpenFrame) -> Option<Load>
    ensures { result ≡ fore_load frame.now.mode frame.now.last }
{
    match frame.mode {
        Mode::Back => None,
        Mode::Fore | Mode::Both => frame.last,
    }
}

/// The frame's last load, where it stands at the back.
fn at_back(frame: &OpenFrame) -> Option<Load>
    ensures { result ≡ back_load frame.now.mode frame.now.last }
{
    match frame.mode {
        Mode::Back => frame.last,
        Mode::Fore | Mode::Both => None,
    }
}

/// The last loads of the frames in the order of their stations.
pub fn loads_in_order(alloc: Global, frames: &Frames) -> Result<Loads, AllocError>
    ensures { IfOk result (λ loads. loads ≡ seated frames.now []) }
{
    let mut loads = Loads::from_vec(Vec::new(alloc));
    for k in 0..frames.len() {
        if let Some(load) = at_front(frames.at(k)) {
            loads.push(load)?;
        }
    }
    let mut left = frames.len();
    while left > 0 {
        left -= 1;
        if let Some(load) = at_back(frames.at(left)) {
            loads.push(load)?;
        }
    }
    Ok(loads)
}

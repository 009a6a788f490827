//! The positions of levels and lanes, in the picture's units.

ghost use Rattle.std.specs.Prelude.{◌≡◌, ◌<◌, ◌≤◌};
ghost use Rattle.mencius_draw.specs.Places.{lane_of, place_at, y_of};

use crate::options::MOST_LEVELS;
use crate::svg::Place;

/// Returns the y coordinate of the middle of a level. Levels after `MOST_LEVELS` all get the coordinate of
/// `MOST_LEVELS`.
pub(crate) fn y_of(level: usize) -> usize
    ensures value { result ≡ y_of level }
    ensures low { 104 ≤ result }
    ensures high { result < 2000000 }
{
    level.min(MOST_LEVELS) * 24 + 104
}

/// Returns the x coordinate of a server's lane. A server without a lane gets 416, which is left of all lanes.
pub(crate) fn lane_of(servers: u32, server: u32) -> u32
    ensures value { result ≡ lane_of servers server }
    ensures low { 416 ≤ result }
    ensures high { result < 2000 }
{
    if server < servers.min(7) {
        server * 204 + 452
    } else {
        416
    }
}

/// Returns the middle of a level on the lane of a server.
pub(crate) fn place_at(servers: u32, server: u32, level: usize) -> Place
    ensures { result ≡ place_at servers server level }
{
    Place {
        x: lane_of(servers, server),
        y: y_of(level),
    }
}

/// Returns the width of a picture whose labels reach to `reach`. It has room for the labels, for the cards below the
/// lanes, and for the key.
pub(crate) fn width_of(servers: u32, reach: usize) -> usize
    requires { reach < 2000000 }
{
    let lanes = servers.min(7) as usize * 204 + 360;
    (reach + 16).max(lanes).max(860)
}

//! The order of a worker's commands.
ghost use Rattle.std.specs.Prelude.{◌≡◌, ◌+◌, ◌<◌, ◌^◌, [], IfSome, OnSome, MatchOption, map, option_map, option_copied};
ghost use Rattle.mencius_base.specs.Limits.{most_servers};
ghost use Rattle.mencius_choices.specs.Order.{BeginsWith, IsNextPlace, after_place, own_command, row_count, row_from, rows_from};

use mencius_base::{Command, Plan};

// The place of a command. It is the server whose list contains the command, and the row in that list, from 0.
#[derive(Clone, Copy, Debug)]
pub struct CommandPlace {
    pub server: u8,
    pub row: usize,
}

// Returns the command at a place, if the list is one of the worker's and has that row.
pub(crate) fn own_command(plan: &Plan, worker: u8, place: CommandPlace) -> Option<&Command>
    ensures command { option_map (λ x. (place.server, x)) (option_copied result)
        ≡ own_command plan.now worker place.row place.server }
    ensures server { OnSome result (place.server < most_servers) }
    ensures row { OnSome result (place.row + 1 < 2 ^ 64) }
{
    if place.server % plan.workers() != worker {
        return None;
    }
    let lists = plan.commands();
    let list = lists.get(usize::from(place.server))?;
    if place.row >= list.len() {
        return None;
    }
    Some(&list[place.row])
}

// Returns the first place of a command of the worker at this row or at a later row.
pub(crate) fn find_from_row(plan: &Plan, worker: u8, row: usize) -> Option<CommandPlace>
    ensures { IsNextPlace plan.now worker result (rows_from plan.now worker row) }
{
    let lists = plan.commands();
    let rows = count_rows(lists);
    for at in row..rows {
        if let Some(place) = find_in_row(plan, worker, at, 0) {
            return Some(place);
        }
    }
    None
}

// Returns the first place of a command of the worker after this place.
pub(crate) fn find_after(plan: &Plan, worker: u8, place: CommandPlace) -> Option<CommandPlace>
    requires server { place.server < most_servers }
    requires row { place.row + 1 < 2 ^ 64 }
    ensures { IsNextPlace plan.now worker result (after_place plan.now worker place) }
{
    if let Some(next) = find_in_row(plan, worker, place.row, place.server + 1) {
        return Some(next);
    }
    find_from_row(plan, worker, place.row + 1)
}

// Returns the first place of a command of the worker at this row, in the lists from server `first` on.
fn find_in_row(plan: &Plan, worker: u8, row: usize, first: u8) -> Option<CommandPlace>
    ensures led { MatchOption result (row_from plan.now worker row first ≡ [])
        (λ place. BeginsWith plan.now worker place (row_from plan.now worker row first)
        (row_from plan.now worker row (place.server + 1))) }
    ensures row { IfSome result (λ place. place.row ≡ row) }
{
    let lists = plan.commands();
    for server in first..lists.len() as u8 {
        let place = CommandPlace { server, row };
        if own_command(plan, worker, place).is_some() {
            return Some(place);
        }
    }
    None
}

// Returns the length of the longest list.
fn count_rows(lists: &[Vec<Command>]) -> usize
    ensures { result ≡ row_count (map (λ l. l.items) lists.now) }
{
    let mut most = 0;
    for list in lists {
        most = list.len().max(most);
    }
    most
}

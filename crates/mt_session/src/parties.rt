ghost use Rattle.std.specs.Prelude.{◌≡◌, ◌≤◌, ◌<◌, ◌+◌, ◌++◌, ◌∷◌, [], true, length, Some, IfOk, OnOk, IsSome, if◌then◌else◌};
ghost use Rattle.std.specs.Option.{is_some, option_copied};
ghost use Rattle.mt_session.specs.First.{place_where, first_where, change_first};
ghost use Rattle.mt_session.specs.Parties.{has_number, party_of, standing_in, has_party, standing_of, message_count, page_count, with_message, with_request, moved, with_standing};

use crate::party::{Party, Standing};
use mt_tree::{Buffer, NoMemory};
use std::alloc::Global;

/// The client of a number.
pub fn party_of(parties: &[Party], number: u32) -> Option<&Party>
    ensures { option_copied result ≡ party_of number parties.now }
{
    for party in parties {
        if party.number == number {
            return Some(party);
        }
    }
    None
}

/// Its place, or how many clients there are where it is none of them.
fn place_of(parties: &[Party], number: u32) -> usize
    ensures { result ≡ place_where (has_number number) parties.now }
{
    for (i, party) in parties.iter().enumerate() {
        if party.number == number {
            return i;
        }
    }
    parties.len()
}

/// Whether there is a client of this number.
pub fn has_party(parties: &[Party], number: u32) -> bool
    ensures { result ≡ has_party number parties.now }
{
    match party_of(parties, number) {
        Some(_party) => true,
        None => false,
    }
}

fn standing_in(standings: &[Standing], message: u64) -> Option<Standing>
    ensures { result ≡ standing_in message standings.now }
{
    if message == 0 {
        return None;
    }
    let at = message - 1;
    if at < standings.len() as u64 {
        Some(standings[at as usize])
    } else {
        None
    }
}

/// Where a message stands. None where there is no such client or message.
pub fn standing_of(parties: &[Party], number: u32, message: u64) -> Option<Standing>
    ensures { result ≡ standing_of number message parties.now }
{
    match party_of(parties, number) {
        Some(party) => standing_in(party.standings.items(), message),
        None => None,
    }
}

/// How many pages a client has read.
pub fn page_count(parties: &[Party], number: u32) -> u64
    ensures { result ≡ page_count number parties.now }
{
    match party_of(parties, number) {
        Some(party) => party.pages,
        None => 0,
    }
}

/// How many messages a client has.
pub fn message_count(parties: &[Party], number: u32) -> u64
    ensures { result ≡ message_count number parties.now }
{
    match party_of(parties, number) {
        Some(party) => party.standings.items().len() as u64,
        None => 0,
    }
}

/// Adds one more message of a client, which may be its first.
pub fn add_request(alloc: Global, parties: &mut Vec<Party>, number: u32) -> Result<(), NoMemory>
    ensures { OnOk result (parties.new.items ≡ with_request number parties.old.items) }
{
    if has_party(parties, number) {
        let place = place_of(parties, number);
        let party = &mut parties[place];
        party.standings.push(Standing::Asked)
    } else {
        let mut standings = Buffer::new(alloc);
        standings.push(Standing::Asked)?;
        match parties.push(Party {
            number,
            pages: 0,
            standings,
        }) {
            Ok(()) => Ok(()),
            Err(_refused) => Err(NoMemory),
        }
    }
}

/// Sets where a message stands, and counts so many more pages of its client.
///
/// Each page is a message that is kept, so memory ends before the count does.
pub fn set_standing(
    parties: &mut Vec<Party>,
    number: u32,
    message: u64,
    standing: Standing,
    more: u64,
) -> Result<(), NoMemory>
    requires { IsSome (standing_of number message parties.old.items) }
    ensures { OnOk result (parties.new.items ≡ with_standing number message standing more parties.old.items) }
{
    let place = place_of(parties, number);
    let party = &mut parties[place];
    match party.pages.checked_add(more) {
        Some(pages) => {
            party.pages = pages;
            let _old = party.standings.replace((message - 1) as usize, standing);
            Ok(())
        }
        None => Err(NoMemory),
    }
}

//! Tests of values from outside. They check the operations that may make a command, the numbers that may make members,
//! and an outbox at its limit.
use crate::same::assert_same;
use mencius_base::{
    BadCommand, Ballot, Command, CommandId, Key, Members, Message, Op, Outbox, Refusal, Text,
};
use std::alloc::Global;
use std::test::Fail;

fn set(alloc: Global, key: &str, text: &str) -> Result<Op, Fail> {
    Ok(Op::Set {
        key: Key::new(String::from_str(alloc, key)?),
        text: Text::new(String::from_str(alloc, text)?),
    })
}

// Returns the fault of client 1's first command, if it has one.
fn fault_of(alloc: Global, key: &str, text: &str) -> Result<Option<BadCommand>, Fail> {
    let id = CommandId {
        client: 1,
        number: 0,
    };
    Ok(Command::new(id, set(alloc, key, text)?).err())
}

// Bytes are checked before lengths, and the key is checked before the text.
#[test]
fn commands_have_limits(rt: HostRuntime) -> Result<(), Fail> {
    let alloc = rt.alloc();
    let long = "t".repeat(alloc, 257)?;
    let long = long.as_str();
    for (key, text, fault) in [
        ("A-z_0.9", "", None),
        ("a b", "x y", Some(BadCommand::KeyByte)),
        ("", "x y", Some(BadCommand::TextByte)),
        ("", long, Some(BadCommand::KeyLength)),
        ("a", long, Some(BadCommand::TextLength)),
    ] {
        assert_same(&rt, &fault_of(alloc, key, text)?, &fault, key);
    }
    Ok(())
}

// Returns the fault of client 1's first command as a compare-and-set, if it has one.
fn fault_of_cas(
    alloc: Global,
    key: &str,
    held: &str,
    text: &str,
) -> Result<Option<BadCommand>, Fail> {
    let id = CommandId {
        client: 1,
        number: 0,
    };
    let op = Op::Cas {
        key: Key::new(String::from_str(alloc, key)?),
        held: Text::new(String::from_str(alloc, held)?),
        text: Text::new(String::from_str(alloc, text)?),
    };
    Ok(Command::new(id, op).err())
}

// Both texts are checked alike. Bad bytes are reported before bad lengths, and in both cases the key comes before the
// texts.
#[test]
fn both_texts_have_limits(rt: HostRuntime) -> Result<(), Fail> {
    let alloc = rt.alloc();
    let most = "t".repeat(alloc, 256)?;
    let most = most.as_str();
    let long = "t".repeat(alloc, 257)?;
    let long = long.as_str();
    for (key, held, text, fault) in [
        ("a", "", "", None),
        ("a", most, most, None),
        ("a b", "x y", "", Some(BadCommand::KeyByte)),
        ("a b", "", "x y", Some(BadCommand::KeyByte)),
        ("", "x y", "", Some(BadCommand::TextByte)),
        ("", "", "x y", Some(BadCommand::TextByte)),
        ("a", long, "x y", Some(BadCommand::TextByte)),
        ("a", "x y", long, Some(BadCommand::TextByte)),
        ("", long, "", Some(BadCommand::KeyLength)),
        ("", "", long, Some(BadCommand::KeyLength)),
        ("a", long, "", Some(BadCommand::TextLength)),
        ("a", "", long, Some(BadCommand::TextLength)),
    ] {
        assert_same(&rt, &fault_of_cas(alloc, key, held, text)?, &fault, key);
    }
    Ok(())
}

// Returns the beta of such members, or `None` if they may not exist.
fn beta_of(servers: u8, beta: u32) -> Option<u32> {
    let members = Members::with_beta(servers, beta)?;
    Some(members.beta())
}

// Returns the number of these members and their beta, or `None` if they may not exist.
fn counts_of(servers: u8) -> Option<(u8, u32)> {
    let members = Members::new(servers)?;
    Some((members.count(), members.beta()))
}

#[test]
fn members_have_limits(rt: HostRuntime) {
    for (servers, beta, want) in [
        (1, 0, Some(0)),
        (7, 4095, Some(4095)),
        (0, 0, None),
        (8, 0, None),
        (3, 4096, None),
        // Without its upper bits, this number is 2.
        (3, 65_538, None),
    ] {
        assert_same(
            &rt,
            &(servers, beta, beta_of(servers, beta)),
            &(servers, beta, want),
            "",
        );
    }
    assert_same(&rt, &counts_of(3), &Some((3, 0)), "");
}

fn suggestion(inst: u32, ticket: u32) -> Message {
    Message::Suggest {
        from: 0,
        inst,
        ticket,
    }
}

#[test]
fn an_outbox_stops_at_its_limit(rt: HostRuntime) -> Result<(), Fail> {
    let mut outbox = Outbox::new(rt.alloc(), 2);
    outbox.reserve(2)?;
    outbox.push(suggestion(0, 0));
    outbox.push(suggestion(3, 1));
    assert_same(&rt, &outbox.reserve(1), &Err(Refusal::MessagesFull), "");
    let counts = (outbox.len(), outbox.limit(), outbox.room());
    assert_same(&rt, &counts, &(2, 2, 0), "");
    assert!(rt; outbox.messages() == [suggestion(0, 0), suggestion(3, 1)].as_slice());
    Ok(())
}

// Whether a message is for one of three servers.
fn is_for(message: &Message, server: u8) -> Option<bool> {
    Some(message.is_for(Members::new(3)?, server))
}

#[test]
fn messages_go_where_they_are_addressed(rt: HostRuntime) {
    let accepted = Message::Accepted {
        from: 1,
        to: 0,
        inst: 0,
        ballot: Ballot::OWNER,
    };
    let skip = Message::Skip {
        from: 0,
        first: 0,
        stop: 4102,
    };
    let found = [is_for(&accepted, 0), is_for(&accepted, 1)];
    assert_same(&rt, &found, &[Some(true), Some(false)], "");
    // Server 3 does not exist.
    let found = [is_for(&skip, 0), is_for(&skip, 3)];
    assert_same(&rt, &found, &[Some(true), Some(false)], "");
}

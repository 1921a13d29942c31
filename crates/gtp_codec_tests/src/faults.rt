//! Texts of faults.

use gtp_ie::{IeFault, ReadFault};
use gtp_user::UserFault;
use gtp_v2::{Head, V2Fault};
use gtp_values::{Memory, Seq, ValueFault};
use std::alloc::Global;
use std::fmt::Display;
use std::process::Abort;
use std::test::Fail;

/// A fault is told in these words.
fn is_told(rt: &impl Abort, alloc: Global, fault: &impl Display, words: &str) -> Result<(), Fail> {
    let told = fault.to_string(alloc)?;
    assert!(rt; told.as_str() == words, "{told}");
    Ok(())
}

/// Each fault is told in its words.
fn are_told<T: Display>(rt: &impl Abort, alloc: Global, rows: &[(T, &str)]) -> Result<(), Fail> {
    for (fault, words) in rows {
        is_told(rt, alloc, fault, words)?;
    }
    Ok(())
}

const OF_VALUES: &[(ValueFault, &str)] = &[
    (ValueFault::TooShort, "too short"),
    (ValueFault::TooLong, "too long"),
    (ValueFault::BadDigit, "a digit that is none"),
    (ValueFault::BadLabel, "a label that is none"),
    (ValueFault::OutOfRange, "out of range"),
];

const OF_BODIES: &[(ReadFault, &str)] = &[
    (ReadFault::Short, "the body is too short"),
    (ReadFault::Bad, "the body has no value"),
];

const OF_ELEMENTS: &[(IeFault, &str)] = &[
    (
        IeFault::Truncated { at: 40 },
        "the element at 40 is not whole",
    ),
    (
        IeFault::ShortValue {
            kind: 87,
            instance: 1,
            at: 40,
        },
        "the element 87/1 at 40 is too short",
    ),
    (
        IeFault::BadValue {
            kind: 87,
            instance: 1,
            at: 40,
        },
        "the element 87/1 at 40 has no value",
    ),
    (IeFault::Memory, "no memory"),
    (IeFault::TooLong, "an element's body is above 65535 octets"),
];

const OF_USER_MESSAGES: &[(UserFault, &str)] = &[
    (UserFault::Short { held: 7 }, "only 7 octets"),
    (UserFault::Version { version: 2 }, "version 2"),
    (UserFault::Protocol, "not of the protocol GTP"),
    (
        UserFault::Length { stated: 3, held: 2 },
        "the length is stated as 3 and is 2",
    ),
    (
        UserFault::ExtensionZero { at: 12 },
        "the extension header at 12 has length 0",
    ),
    (
        UserFault::ExtensionPast { at: 12 },
        "the extension header at 12 is not whole",
    ),
    (
        UserFault::ExtensionNeeded { kind: 192, at: 12 },
        "the extension header of type 192 at 12 is not understood",
    ),
    (UserFault::Missing { kind: 14 }, "the element 14 is missing"),
    (UserFault::Element { at: 12 }, "there is no element at 12"),
    (UserFault::Memory, "no memory"),
    (UserFault::TooLong, "the length is above 65535"),
];

/// What is known of the message does not stand in the text.
fn head() -> Head {
    Head {
        kind: 32,
        teid: None,
        seq: Seq::new(1),
        priority: None,
        sender: None,
    }
}

#[test]
fn faults_in_words(rt: HostRuntime) -> Result<(), Fail> {
    let alloc = rt.alloc();
    are_told(&rt, alloc, OF_VALUES)?;
    are_told(&rt, alloc, OF_BODIES)?;
    are_told(&rt, alloc, OF_ELEMENTS)?;
    are_told(&rt, alloc, OF_USER_MESSAGES)?;
    is_told(&rt, alloc, &Memory, "no memory")
}

#[test]
fn faults_of_messages_in_words(rt: HostRuntime) -> Result<(), Fail> {
    are_told(
        &rt,
        rt.alloc(),
        &[
            (V2Fault::Short { held: 3 }, "only 3 octets"),
            (V2Fault::Version { version: 1 }, "version 1"),
            (
                V2Fault::BadPiggyback { at: 13 },
                "the message at 13 is missing, or announces a third",
            ),
            (
                V2Fault::Length { stated: 9, held: 8 },
                "the length is stated as 9 and is 8",
            ),
            (
                V2Fault::FlagT { kind: 1 },
                "type 1 has the wrong form of header",
            ),
            (
                V2Fault::Missing {
                    kind: 71,
                    instance: 0,
                    conditional: false,
                    group: None,
                    head: head(),
                },
                "the element 71/0 is missing",
            ),
            (
                V2Fault::Element {
                    fault: IeFault::Truncated { at: 128 },
                    head: head(),
                },
                "the element at 128 is not whole",
            ),
            (V2Fault::Memory, "no memory"),
            (V2Fault::TooLong, "the length is above 65535"),
        ],
    )
}

//! The first fault of a datagram, in numbers.

ghost use Rattle.std.specs.Prelude.{◌≡◌};
ghost use Rattle.gtp_c.specs.Faults.{no_fault, control_told, user_told, element_told};

use crate::told::bit;
use gtp_user::UserFault;
use gtp_v2::{IeFault, V2Fault};

/// The first fault of a datagram. What does not belong to it is 0.
#[repr(C)]
#[derive(Clone, Copy)]
pub struct Fault {
    /// The place, in octets from the start of the datagram.
    pub at: u64,
    /// The stated length, and how many octets there are.
    pub stated: u64,
    pub held: u64,
    /// Its number, after H or U.
    pub number: u8,
    /// Of H7, the number of the element's fault, after I.
    pub detail: u8,
    pub version: u8,
    /// The type of the message.
    pub message: u8,
    /// The type and the instance of the element, or the type of the extension header.
    pub element: u8,
    pub instance: u8,
    /// 1 where the missing element is conditional.
    pub conditional: u8,
}

impl Fault {
    /// Nothing but a number.
    fn numbered(number: u8) -> Fault
        ensures { result ≡ no_fault number }
    {
        Fault {
            at: 0,
            stated: 0,
            held: 0,
            number,
            detail: 0,
            version: 0,
            message: 0,
            element: 0,
            instance: 0,
            conditional: 0,
        }
    }

    /// Of an element of a message of this type.
    fn of_element(message: u8, fault: IeFault) -> Fault
        ensures { result ≡ element_told message fault }
    {
        let mut told = Fault::numbered(7);
        told.message = message;
        told.detail = fault.number();
        match fault {
            IeFault::Truncated { at } => told.at = at as u64,
            IeFault::ShortValue { kind, instance, at } | IeFault::BadValue { kind, instance, at } =>
                {
                    told.element = kind;
                    told.instance = instance;
                    told.at = at as u64;
                }
            IeFault::Memory | IeFault::TooLong => {}
        }
        told
    }

    /// Of a datagram of the control plane.
    pub(crate) fn of_control(fault: V2Fault) -> Fault
        ensures { result ≡ control_told fault }
    {
        if let V2Fault::Element { fault, head } = fault {
            return Fault::of_element(head.kind, fault);
        }
        let mut told = Fault::numbered(fault.number());
        match fault {
            V2Fault::Short { held } => told.held = held as u64,
            V2Fault::Version { version } => told.version = version,
            V2Fault::Length { stated, held } => {
                told.stated = stated as u64;
                told.held = held as u64;
            }
            V2Fault::FlagT { kind } => told.message = kind,
            V2Fault::BadPiggyback { at } => told.at = at as u64,
            V2Fault::Missing {
                kind,
                instance,
                conditional,
                group,
                head,
            } => {
                told.at = group.unwrap_or(0) as u64;
                told.message = head.kind;
                told.element = kind;
                told.instance = instance;
                told.conditional = bit(conditional);
            }
            V2Fault::Element { .. } | V2Fault::Memory | V2Fault::TooLong => {}
        }
        told
    }

    /// Of a datagram of the user plane.
    pub(crate) fn of_user(fault: UserFault) -> Fault
        ensures { result ≡ user_told fault }
    {
        let mut told = Fault::numbered(fault.number());
        match fault {
            UserFault::Short { held } => told.held = held as u64,
            UserFault::Version { version } => told.version = version,
            UserFault::Length { stated, held } => {
                told.stated = stated as u64;
                told.held = held as u64;
            }
            UserFault::ExtensionZero { at }
            | UserFault::ExtensionPast { at }
            | UserFault::Element { at } => told.at = at as u64,
            UserFault::ExtensionNeeded { kind, at } => {
                told.at = at as u64;
                told.element = kind;
            }
            UserFault::Missing { kind } => told.element = kind,
            UserFault::Protocol | UserFault::Memory | UserFault::TooLong => {}
        }
        told
    }
}

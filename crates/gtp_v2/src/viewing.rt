//! Messages read in the place where they lie.

ghost use Rattle.gtp_ie.specs.Form.{bearer_context};
ghost use Rattle.std.specs.Prelude.{◌≡◌, ◌≢◌, ℕ, ◌+◌, ◌/◌, ◌<◌, ◌≤◌, ◌^◌, [], ◌∷◌, All, IsTrue, Ok, Err, IfOk, IfErr, IsOkAnd, List, length, map, Some, None, is_some, option_map};
ghost use Rattle.gtp_values.specs.Steps.{Gives};
ghost use Rattle.gtp_ie.specs.Element.{elements_of, list_of, all_of};
ghost use Rattle.gtp_ie.specs.Value.{Value};
ghost use Rattle.gtp_v2.specs.reading.Lines.{line_of};
ghost use Rattle.gtp_v2.specs.Table.{Row};
ghost use Rattle.gtp_v2.specs.reading.Headed.{headed_of, HasHeader};
ghost use Rattle.gtp_v2.specs.reading.Checked.{forgotten};
ghost use Rattle.gtp_v2.specs.Viewed.{optional_at, Viewed, in_row, has_row, row_of, always_has, front_value, in_groups, inner_of, values_in, in_list, has_several, several_of, values_of};
ghost use Rattle.gtp_v2.specs.Viewed.{has_contexts, context_rows, contexts_of, always_has_context, context_always_has};
ghost use Rattle.gtp_v2.specs.Message.{raw_of, MessageGives, MessageAllocates, ContentAllocates};
ghost use Rattle.gtp_v2.specs.reading.Message.{has_form, typed_by, content_at, message_at};
ghost use Rattle.gtp_v2.specs.Body.{content_of, kind_of, message_value, OctetsOnlyWithoutTable};
ghost use Rattle.gtp_v2.specs.Pair.{DatagramValue, IsDatagram, IsDatagramFault, LiesIn, LieIn, OfEach, DatagramAllocates, both, datagram_seen, datagram_value, second_of};
ghost use Rattle.gtp_v2.specs.reading.Pair.{second_at, announced_at, datagram_at};
ghost use Rattle.gtp_v2.specs.reading.Places.{place_of_fault};
ghost use Rattle.gtp_v2.specs.Instances.{InstanceIsSmall, IsOfOctets};
ghost use Rattle.gtp_v2.specs.Marks.{MeetsMarks};
ghost use Rattle.gtp_v2.specs.Priority.{PriorityNeedsTeid};
ghost use Rattle.gtp_v2.specs.Tables.{table_of};
ghost use Rattle.gtp_v2.specs.reading.Viewed.{elements_by, viewed_at, IsViewed};
ghost use Rattle.gtp_v2.specs.declared.fault.V2Fault.{V2Fault as AnyFault};

use crate::body::{build_datagram, build_other};
use crate::check::check_lines;
use crate::contexts::Contexts;
use crate::fault::{V2Fault, moved};
use crate::flags::announces_another;
use crate::header::{Header, read_header};
use crate::message::{Datagram, Message};
use crate::message_table::{list_fault, row_fault};
use crate::required_rows::asked_of;
use crate::single_rows::{mandatory, optional};
use crate::table::Line;
use crate::values::Values;
use byteorder::{BigEndian, ByteOrder};
use gtp_ie::kinds::BEARER_CONTEXT;
use gtp_ie::{Elements, IeValue, Indexed, indexed_at};
use gtp_values::{Below, Seq, Teid};
use std::alloc::Global;
use std::marker::Model;

mod plain;

use plain::view_alone;

/// A message where it lies. Contracts see the message, the octets after its header, and their elements. The
/// places of these count from the message's first octet.
#[derive(Debug, Drop)]
pub struct MessageView<'a> {
    header: Header<'a>,
    /// The elements after the header, where the type has a table.
    elements: Option<Indexed<'a>>,
}

/// A datagram where it lies: one message, or two (TS 29.274 5.5.1). Contracts see the message, the second one
/// where it announces one, and the octets of that.
#[derive(Debug, Drop)]
pub struct DatagramView<'a> {
    message: MessageView<'a>,
    /// The octets of the second message, which were read once; none where there is none.
    back: &'a [u8],
}

impl<'a> Model for MessageView<'a> {
    ghost use Rattle.gtp_v2.specs.reading.Headed.{headed_of};
    ghost use Rattle.gtp_v2.specs.Viewed.{Viewed};
    ghost use Rattle.gtp_v2.specs.reading.Viewed.{viewed, IsViewed};

    ghost Value = { Viewed };

    ghost view = { λ a. viewed (headed_of a.header) a.elements };

    ghost invariant = { λ a. IsViewed (headed_of a.header) a.elements };
}

impl<'a> Model for DatagramView<'a> {
    ghost use Rattle.gtp_v2.specs.Viewed.{ViewedDatagram};
    ghost use Rattle.gtp_v2.specs.reading.Viewed.{viewed_at, IsBack};

    ghost Value = { ViewedDatagram };

    ghost view = { λ a. record { message = a.message; second = viewed_at a.back.now; back = a.back.now } };

    ghost invariant = { λ a. IsBack a.back.now };
}

/// Whether a header has a TEID exactly where one is asked for.
fn has_form(has_teid: Option<bool>, header: &Header) -> bool
    ensures { result ≡ has_form has_teid (headed_of header.now) }
{
    match has_teid {
        Some(asked) => header.teid.is_some() == asked,
        None => true,
    }
}

/// The elements after a header, which has a TEID exactly where one is asked for; they have what these
/// lines ask.
#[tactic(auto, unfolding(crate::specs::reading::Message::typed_by, crate::specs::reading::Message::list_by))]
pub fn view_typed<'a>(
    has_teid: Option<bool>,
    lines: &[Line],
    header: &Header<'a>,
) -> Result<Indexed<'a>, V2Fault>
    ensures reads { Gives (λ _. tt) result (forgotten (typed_by has_teid (map line_of lines.now)
        (headed_of header.now))) }
    ensures elements { IfOk result (λ es. es
        ≡ list_of (elements_of header.now.at header.now.rest.now)) }
{
    if !has_form(has_teid, header) {
        return Err(V2Fault::FlagT { kind: header.kind });
    }
    let elements = match indexed_at(header.rest, header.at) {
        Ok(elements) => elements,
        Err(fault) => return Err(list_fault(header, fault)),
    };
    match check_lines(lines, &elements) {
        Ok(()) => Ok(elements),
        Err(fault) => Err(row_fault(header, &elements, fault)),
    }
}

/// The elements after a header, where its type has a table; all lines of the table read.
#[tactic(auto, unfolding(crate::specs::reading::Message::content_at))]
fn view_content<'a>(header: &Header<'a>) -> Result<Option<Indexed<'a>>, V2Fault>
    ensures reads { Gives (λ _. tt) result (forgotten (content_at (headed_of header.now))) }
    ensures elements { IfOk result (λ es. es
        ≡ elements_by (table_of header.now.kind) (headed_of header.now)) }
{
    match asked_of(header.kind) {
        Some(asked) => {
            let elements = view_typed(Some(asked.has_teid), asked.lines, header)?;
            Ok(Some(elements))
        }
        None => Ok(None),
    }
}

/// A view of the message that begins with these four octets and has the rest after them, by one reading.
#[tactic(auto, unfolding(crate::specs::reading::Message::message_at))]
fn view_opened<'a>(
    first: u8,
    kind: u8,
    high: u8,
    low: u8,
    rest: &'a [u8],
) -> Result<MessageView<'a>, V2Fault>
    ensures message { Gives (λ v. v.message) result
        (message_at (first ∷ kind ∷ high ∷ low ∷ rest.now)) }
    ensures header { IfOk result (λ v. PriorityNeedsTeid v.message.teid v.message.priority) }
    ensures lies { IfOk result (LiesIn (first ∷ kind ∷ high ∷ low ∷ rest.now)) }
    ensures is { IfOk result (λ v. Some v ≡ viewed_at (first ∷ kind ∷ high ∷ low ∷ rest.now)) }
    ensures place { IfErr result (λ f. place_of_fault f ≤ 4 + length rest.now) }
{
    let header = match read_header(first, kind, high, low, rest) {
        Ok(header) => header,
        Err(fault) => return Err(fault),
    };
    let elements = match view_content(&header) {
        Ok(elements) => elements,
        Err(fault) => return Err(fault),
    };
    Ok(MessageView { header, elements })
}

/// A view of the message that octets spell, which announces no other, by one reading.
#[tactic(auto, unfolding(crate::specs::reading::Message::message_at))]
fn view_message(octets: &[u8]) -> Result<MessageView<'_>, V2Fault>
    ensures message { Gives (λ v. v.message) result (message_at octets.now) }
    ensures header { IfOk result (λ v. PriorityNeedsTeid v.message.teid v.message.priority) }
    ensures lies { IfOk result (LiesIn octets.now) }
    ensures is { IfOk result (λ v. Some v ≡ viewed_at octets.now) }
    ensures place { IfErr result (λ f. place_of_fault f ≤ length octets.now) }
{
    let [first, kind, high, low, rest @ ..] = octets else {
        return Err(V2Fault::Short { held: octets.len() });
    };
    view_opened(*first, *kind, *high, *low, rest)
}

/// A view of the second message of a datagram, whose first octet has this place.
#[tactic(auto, unfolding(crate::specs::reading::Pair::second_at))]
fn view_second(octets: &[u8], place: usize) -> Result<MessageView<'_>, V2Fault>
    requires { place + length octets.now < 2 ^ 64 }
    ensures message { Gives (λ v. v.message) result (second_at place octets.now) }
    ensures header { IfOk result (λ v. PriorityNeedsTeid v.message.teid v.message.priority) }
    ensures lies { IfOk result (LiesIn octets.now) }
    ensures is { IfOk result (λ v. Some v ≡ viewed_at octets.now) }
{
    if octets.is_empty() {
        return Err(V2Fault::BadPiggyback { at: place });
    }
    match view_message(octets) {
        Ok(view) => Ok(view),
        Err(fault) => Err(moved(fault, place)),
    }
}

/// A view of a message, and of the octets in which a second one lies.
#[tactic(auto, using(crate::proofs::Lies::back_of))]
fn with_second<'a>(
    message: MessageView<'a>,
    second: &MessageView<'_>,
    back: &'a [u8],
) -> DatagramView<'a>
    requires lies { LiesIn back.now second.now }
    requires is { Some second.now ≡ viewed_at back.now }
    ensures message { result.message ≡ message.entry }
    ensures second { result.second ≡ Some second.now }
    ensures back { result.back ≡ back.now }
{
    DatagramView { message, back }
}

/// A view of two messages, of which the first begins with these four octets and announces the second, by one
/// reading.
#[tactic(auto, unfolding(crate::specs::reading::Pair::announced_at, crate::specs::reading::Pair::pair_at))]
fn view_pair<'a>(
    first: u8,
    kind: u8,
    high: u8,
    low: u8,
    held: &'a [u8],
) -> Result<DatagramView<'a>, V2Fault>
    requires announces { first / 16 ≡ 5 }
    requires place { 4 + length held.now < 2 ^ 64 }
    ensures messages { Gives datagram_seen result (announced_at first kind high low held.now) }
    ensures header { IfOk result (λ v.
        OfEach (λ s. PriorityNeedsTeid s.message.teid s.message.priority) v.message v.second) }
    ensures lie { IfOk result (λ v.
        LieIn (first ∷ kind ∷ high ∷ low ∷ held.now) v.message v.second v.back) }
{
    let stated = usize::from(BigEndian::read_u16(&[high, low]));
    if held.len() < stated {
        return Err(V2Fault::Length {
            stated,
            held: held.len(),
        });
    }
    let (front, back) = held.split_at(stated);
    let message = match view_opened(first - 16, kind, high, low, front) {
        Ok(view) => view,
        Err(fault) => return Err(fault),
    };
    let second = match view_second(back, 4 + stated) {
        Ok(view) => view,
        Err(fault) => return Err(fault),
    };
    Ok(with_second(message, &second, back))
}

/// A view of the message or of the two that a datagram spells, by one reading.
#[cold]
#[inline(never)]
#[tactic(auto, unfolding(crate::specs::reading::Pair::datagram_at, crate::specs::reading::Pair::alone_at, crate::specs::reading::Message::message_at))]
pub fn view_any(octets: &[u8]) -> Result<DatagramView<'_>, V2Fault>
    ensures messages { Gives datagram_seen result (datagram_at octets.now) }
    ensures header { IfOk result (λ v.
        OfEach (λ s. PriorityNeedsTeid s.message.teid s.message.priority) v.message v.second) }
    ensures lie { IfOk result (λ v. LieIn octets.now v.message v.second v.back) }
{
    let [first, kind, high, low, rest @ ..] = octets else {
        return Err(V2Fault::Short { held: octets.len() });
    };
    if announces_another(*first) {
        return view_pair(*first, *kind, *high, *low, rest);
    }
    let message = match view_opened(*first, *kind, *high, *low, rest) {
        Ok(view) => view,
        Err(fault) => return Err(fault),
    };
    Ok(DatagramView { message, back: &[] })
}

/// The same, a message alone first, of a type with a table and without a fault: faults and what is rare are read out
/// of line.
#[inline(always)]
pub fn view_datagram(octets: &[u8]) -> Result<DatagramView<'_>, V2Fault>
    ensures messages { Gives datagram_seen result (datagram_at octets.now) }
    ensures header { IfOk result (λ v.
        OfEach (λ s. PriorityNeedsTeid s.message.teid s.message.priority) v.message v.second) }
    ensures lie { IfOk result (λ v. LieIn octets.now v.message v.second v.back) }
{
    if let Some(view) = view_alone(octets) {
        return Ok(view);
    }
    match view_any(octets) {
        Ok(view) => Ok(view),
        Err(fault) => Err(fault),
    }
}

/// A view of the message or of the two that a datagram spells, or its first fault. Takes no memory.
pub fn view(octets: &[u8]) -> Result<DatagramView<'_>, V2Fault>
    // What is answered is spelled so.
    ensures found { IfOk result (λ v. IsDatagram octets.now (datagram_seen v)) }
    // What is spelled so is answered.
    ensures only { (d : DatagramValue) → IsDatagram octets.now d →
        IsOkAnd result (λ v. datagram_seen v ≡ d) }
    // The first fault is answered.
    ensures first { (f : AnyFault) → IsDatagramFault octets.now f → result ≡ Err f }
    // A fault is the first one.
    ensures fault { IfErr result (λ f. IsDatagramFault octets.now f) }
    // An instance that a fault names is below 16, and no fault is out of memory or too long.
    ensures instance { IfErr result InstanceIsSmall }
    ensures of_octets { IfErr result IsOfOctets }
    // Each message meets the marks of its table, and the condition of `encode` on its header.
    ensures marks { IfOk result (λ v. OfEach (λ s. MeetsMarks s.message) v.message v.second) }
    ensures header { IfOk result (λ v.
        OfEach (λ s. PriorityNeedsTeid s.message.teid s.message.priority) v.message v.second) }
    // Each lies in its own octets: those after its header are theirs, and so are its elements.
    ensures lie { IfOk result (λ v. LieIn octets.now v.message v.second v.back) }
{
    view_datagram(octets)
}

/// The datagram of the message that was viewed: only memory can be wanting.
fn build_viewed(
    alloc: Global,
    header: &Header,
    elements: &Option<Indexed>,
) -> Result<Datagram, V2Fault>
    requires { IsViewed (headed_of header.now) elements.now }
    ensures content { MessageGives (ContentAllocates (table_of header.now.kind))
        (λ d. content_of d.message.body) result (content_at (headed_of header.now)) }
    ensures kind { IfOk result (λ d. kind_of d.message.body ≡ header.now.kind) }
    ensures header { IfOk result (λ d. HasHeader header.now d.message) }
    ensures octets_only { IfOk result (λ d. OctetsOnlyWithoutTable d.message.body) }
    ensures alone { IfOk result (λ d. d.second ≡ None) }
{
    match elements {
        Some(elements) => build_datagram(alloc, header, elements),
        None => build_other(alloc, header),
    }
}

impl<'a> MessageView<'a> {
    /// The type of the message.
    pub fn kind(&self) -> u8
        ensures { result ≡ self.now.message.kind }
    {
        self.header.kind
    }

    /// The receiver's TEID.
    pub fn teid(&self) -> Option<Teid>
        ensures { result ≡ self.now.message.teid }
    {
        self.header.teid
    }

    /// The sequence number.
    pub fn seq(&self) -> Seq
        ensures { result ≡ self.now.message.seq }
    {
        self.header.seq
    }

    /// The message's priority, where the header has one.
    pub fn priority(&self) -> Option<Below<16>>
        ensures { result ≡ self.now.message.priority }
    {
        self.header.priority
    }

    /// The octets after the header.
    pub fn octets(&self) -> &'a [u8]
        ensures { result.now ≡ self.now.octets }
    {
        self.header.rest
    }

    /// The same of a message that is kept as octets; `None` of one whose type has a table.
    pub fn raw(&self) -> Option<&'a [u8]>
        ensures { option_map (λ octets. octets.now) result ≡ raw_of self.now.message.content }
    {
        match &self.elements {
            Some(_) => None,
            None => Some(self.header.rest),
        }
    }

    /// The elements after the header, in order; none of a message that is kept as octets.
    pub fn elements(&self) -> Elements<'a>
        ensures { result ≡ self.now.elements }
    {
        match &self.elements {
            Some(elements) => elements.iter(),
            None => Elements::none(),
        }
    }

    /// The value of the first element of the value's type and an instance, where there is one and it reads.
    pub fn value<T: IeValue>(&self, instance: u8) -> Option<T>
        // It is of the elements.
        ensures element { option_map T.value result
            ≡ optional_at T.KIND instance self.now.elements }
        // And it is what the message has in the row of that type and instance, where its table has one.
        ensures field { (values : List Value) →
            in_row T.KIND instance self.now.message ≡ Some values →
            option_map T.value result ≡ front_value values }
        // And it is what stands in that row of a message whose type has one.
        ensures row { IsTrue (has_row self.now.message.kind T.KIND instance)
            → option_map T.value result ≡ front_value (row_of T.KIND instance self.now.message) }
    {
        match &self.elements {
            Some(elements) => optional::<T>(elements, instance),
            None => None,
        }
    }

    /// The value of the first element of the value's type and an instance, of a message whose type always
    /// has one: its table has a row of them that is mandatory or conditional.
    pub fn needed<T: IeValue>(&self, instance: u8) -> T
        requires { IsTrue (always_has self.now.message.kind T.KIND instance) }
        // It is of the elements.
        ensures element { optional_at T.KIND instance self.now.elements ≡ Some (T.value result) }
        // And it is what the message has in that row.
        ensures field { in_row T.KIND instance self.now.message ≡ Some (T.value result ∷ []) }
        ensures row { row_of T.KIND instance self.now.message ≡ T.value result ∷ [] }
    {
        let Some(elements) = &self.elements else {
            unreachable!()
        };
        mandatory::<T>(elements, instance)
    }

    /// The values of the elements of the value's type and an instance, in order; an element that does not
    /// read is passed over.
    pub fn values<T: IeValue>(&self, instance: u8) -> Values<'a, T>
        // They are of the elements.
        ensures elements { result ≡ values_of T.KIND (all_of T.KIND instance self.now.elements) }
        // And they are what the message has in the row of several values of that type and instance, where its
        // table has one.
        ensures list { (values : List Value) →
            in_list T.KIND instance self.now.message ≡ Some values → result ≡ values }
        // And they are what stands in that row of a message whose type has one.
        ensures row { IsTrue (has_several self.now.message.kind T.KIND instance)
            → result ≡ several_of T.KIND instance self.now.message }
    {
        match &self.elements {
            Some(elements) => Values::of(elements.all(T::KIND, instance)),
            None => Values::of(Elements::none().all(T::KIND, instance)),
        }
    }

    /// The datagram of this message alone, owned.
    fn to_datagram(&self, alloc: Global) -> Result<Datagram, V2Fault>
        ensures message { MessageGives MessageAllocates (λ d. message_value d.message) result
            (Ok self.now.message) }
        ensures alone { IfOk result (λ d. d.second ≡ None) }
        ensures kind { IfOk result (λ d. OctetsOnlyWithoutTable d.message.body) }
        ensures header { IfOk result (λ d. PriorityNeedsTeid d.message.teid d.message.priority) }
        ensures marks { IfOk result (λ d. MeetsMarks (message_value d.message)) }
    {
        build_viewed(alloc, &self.header, &self.elements)
    }

    /// The message, owned. `Memory` is the only fault, and only of a message for which some is allocated: it is a
    /// Create Session Request or Response, or a list in it has a member, or it is kept as octets and has some. In
    /// line: else it is moved once more.
    #[inline(always)]
    pub fn to_message(&self, alloc: Global) -> Result<Message, V2Fault>
        ensures message { MessageGives MessageAllocates message_value result (Ok self.now.message) }
        // It meets the conditions of `encode` and the marks of its table.
        ensures kind { IfOk result (λ m. OctetsOnlyWithoutTable m.body) }
        ensures header { IfOk result (λ m. PriorityNeedsTeid m.teid m.priority) }
        ensures marks { IfOk result (λ m. MeetsMarks (message_value m)) }
    {
        let datagram = self.to_datagram(alloc)?;
        Ok(datagram.message)
    }

    /// The bearer contexts of instance 0 among the elements, in order, whether or not the message's table
    /// has a row of them.
    pub fn contexts(&self) -> Contexts<'a>
        // They are of the elements.
        ensures elements { result ≡ map inner_of (all_of bearer_context 0 self.now.elements) }
        // What the message's groups have is what these contexts say, row by row.
        ensures groups { (p : List Row × List (List (List Value))) →
            in_groups bearer_context 0 self.now.message ≡ Some p → p.1 ≡ map (values_in p.0) result }
        // And what these contexts say is what stands in a message whose type has bearer contexts.
        ensures rows { IsTrue (has_contexts self.now.message.kind) → contexts_of self.now.message
            ≡ map (values_in (context_rows self.now.message.kind)) result }
        // There is one where messages of the type always have one.
        ensures some { IsTrue (always_has_context self.now.message.kind) → result ≢ [] }
        // Each has a value in each row that always has one.
        ensures needed { (kind instance : ℕ) →
            IsTrue (context_always_has self.now.message.kind kind instance) →
            All (λ es. IsTrue (is_some (optional_at kind instance es))) result }
    {
        match &self.elements {
            Some(elements) => Contexts::of(&elements.from_first(BEARER_CONTEXT, 0)),
            None => Contexts::of(&Elements::none()),
        }
    }
}

/// The datagram of two messages, owned. Not inlined, so that one message alone is moved no further for it.
#[cold]
#[inline(never)]
fn two_messages(
    alloc: Global,
    first: &MessageView<'_>,
    second: &MessageView<'_>,
) -> Result<Datagram, V2Fault>
    ensures messages { MessageGives DatagramAllocates datagram_value result
        (Ok (both first.now.message second.now.message)) }
    ensures kind { IfOk result
        (λ d. OfEach (λ m. OctetsOnlyWithoutTable m.body) d.message (second_of d)) }
    ensures header { IfOk result
        (λ d. OfEach (λ m. PriorityNeedsTeid m.teid m.priority) d.message (second_of d)) }
    ensures marks { IfOk result
        (λ d. OfEach (λ m. MeetsMarks (message_value m)) d.message (second_of d)) }
{
    let message = first.to_message(alloc)?;
    match Box::new(alloc, second.to_message(alloc)?) {
        Ok(second) => Ok(Datagram {
            message,
            second: Some(second),
        }),
        Err(_) => Err(V2Fault::Memory),
    }
}

/// A datagram, owned, of one message or of two. Not inlined, for the same reason.
#[cold]
#[inline(never)]
fn one_or_two(alloc: Global, seen: &DatagramView<'_>) -> Result<Datagram, V2Fault>
    ensures messages { MessageGives DatagramAllocates datagram_value result
        (Ok (datagram_seen seen.now)) }
    ensures kind { IfOk result
        (λ d. OfEach (λ m. OctetsOnlyWithoutTable m.body) d.message (second_of d)) }
    ensures header { IfOk result
        (λ d. OfEach (λ m. PriorityNeedsTeid m.teid m.priority) d.message (second_of d)) }
    ensures marks { IfOk result
        (λ d. OfEach (λ m. MeetsMarks (message_value m)) d.message (second_of d)) }
{
    match seen.second() {
        Some(second) => two_messages(alloc, &seen.message, &second),
        None => seen.message.to_datagram(alloc),
    }
}

impl<'a> DatagramView<'a> {
    /// The message: the first, where there are two.
    pub fn message(&self) -> &MessageView<'a>
        ensures { result.now ≡ self.now.message }
    {
        &self.message
    }

    /// The second message, which the first announces. Its octets are read once more.
    pub fn second(&self) -> Option<MessageView<'a>>
        ensures { result ≡ self.now.second }
    {
        if self.back.is_empty() {
            return None;
        }
        match view_message(self.back) {
            Ok(second) => Some(second),
            Err(_) => unreachable!(),
        }
    }

    /// The octets of the second message; none where there is none.
    pub fn back(&self) -> &'a [u8]
        ensures { result.now ≡ self.now.back }
    {
        self.back
    }

    /// The datagram, owned. `Memory` is the only fault, and only where some is allocated for a message.
    pub fn to_datagram(&self, alloc: Global) -> Result<Datagram, V2Fault>
        ensures messages { MessageGives DatagramAllocates datagram_value result
            (Ok (datagram_seen self.now)) }
        // Each message meets the conditions of `encode` and the marks of its table.
        ensures kind { IfOk result
            (λ d. OfEach (λ m. OctetsOnlyWithoutTable m.body) d.message (second_of d)) }
        ensures header { IfOk result
            (λ d. OfEach (λ m. PriorityNeedsTeid m.teid m.priority) d.message (second_of d)) }
        ensures marks { IfOk result
            (λ d. OfEach (λ m. MeetsMarks (message_value m)) d.message (second_of d)) }
    {
        if self.back.is_empty() {
            self.message.to_datagram(alloc)
        } else {
            one_or_two(alloc, self)
        }
    }
}

//! The laws of the machine. Their functions do nothing: each contract is a law.

ghost use Rattle.gtp_machine.specs.Laws.{
  ARunIsPossible,
  ATemplateIsPossible,
  Always,
  AnsweredByTaker,
  OneResponsePerBearerRequest,
  EachRequestActsOnce,
  EachClosesWhole,
  ContextTeidsWereDrawn,
  EachOpened,
  KnownIsLatest,
  OneContextPerRequest,
  NamedTeidsWereDrawn,
  NoneAhead,
  MessagesOfDatagrams,
  OfEachRun,
  OneMessage,
  PlanesApart,
  EachResponseAnswers,
  StepsAreKept,
};
ghost use Rattle.gtp_machine.specs.Node.{Role};
ghost use Rattle.gtp_machine.specs.Safety.{BearersAgree, EachOwed, NoneOutlivesRestart, SessionsAgree};
ghost use Rattle.gtp_machine.specs.World.{side_of};
ghost use Rattle.gtp_machine.specs.Reading.{
  CreateBearerRequestReads,
  ControlByGrammar,
  CutsRead,
  DatagramByGrammar,
  DatagramCutsRead,
  DecodedReads,
  MessageReadsAlone,
  PairCutsRead,
  CreateSessionRequestReads,
  UserByGrammar,
  UserByName,
  UserCutsRead,
  UserDecodedReads,
};
ghost use Rattle.gtp_machine.specs.Named.{ControlByName};
ghost use Rattle.gtp_machine.specs.Numbers.{CauseValues, ElementTypes, InterfaceTypes};
ghost use Rattle.gtp_machine.specs.Versions.{TellingIsNotAnswered, ToldVersionReads, VersionIsTold};
ghost use Rattle.gtp_machine.specs.Spelling.{PairSpelledReads, SpelledApart, SpelledReads};
ghost use Rattle.gtp_machine.specs.Determined.{
  OneAnswer,
  OneIsDone,
  OneIsTold,
  OneTick,
  ReachedHoldsOneAnswer,
};
ghost use Rattle.gtp_machine.specs.Once.{ActsOnce, ActsOnceInTime, HeldUntilForgotten};
ghost use Rattle.gtp_machine.specs.Exchange.{
  ExchangeSendable,
  ExchangesArePossible,
  FairExchange,
  SendableRead,
};
ghost use Rattle.gtp_machine.specs.Sound.{
  AlwaysSteps,
  AlwaysTicks,
  BreaksByDefault,
  GivesEachAddressOnce,
  GivesUpDue,
  PairReadsWhole,
  ReachedIsSound,
  ReadsWhole,
  StartsSound,
  StaysSound,
  TakenWhole,
  TickStaysSound,
};

/// Tunnel safety: what holds at the end of each run, whatever is lost, cut, repeated, held back or
/// delivered in another order, and whenever a gateway restarts.
pub fn tunnel_safety()
    // Sessions that name each other have the same subscriber, access point, default identity and
    // address.
    ensures sessions { Always (λ w. SessionsAgree w.serving.node w.packet.node) }

    // Bearers that name each other have the same identity, and their sessions agree.
    ensures bearers { Always (λ w. BearersAgree w.serving.node w.packet.node) }

    // Where no delivery was late, each packet that was accepted was handed in at the other gateway,
    // octet for octet, for the same subscriber, access point and bearer.
    ensures owed { Always (λ w. EachOwed w.late w.handed w.accepted) }

    // No session outlives a restart of the peer that its gateway has heard of.
    ensures none_over { Always (λ w.
        (role : Role) → NoneOutlivesRestart (side_of w role).node (side_of w role).seen) }
{}

/// What tunnel safety rests on.
pub fn foundations()
    // The messages that were sent are those of the datagrams, one datagram after the other.
    ensures kept { Always MessagesOfDatagrams }

    // Each TEID stands as its sender's own in one message and its repeats.
    ensures one_message { Always OneMessage }

    // No TEID stands in a message for both planes.
    ensures planes_apart { Always PlanesApart }

    // The TEIDs of each session go back to F-TEIDs of the control plane in such messages, and those
    // of each bearer to F-TEIDs of the user plane.
    ensures goes_back { Always ContextTeidsWereDrawn }

    // The TEIDs that messages name, in their headers and for their packets, go back to such
    // messages.
    ensures names { Always NamedTeidsWereDrawn }

    // Each Create Session Response of the packet gateway and each Create Bearer Response of the
    // serving gateway goes back to that request of the other for which it made or refused a context.
    ensures responses { OfEachRun EachResponseAnswers }

    // And only these gateways send such responses.
    ensures answerers { Always AnsweredByTaker }

    // No counter in a message is ahead of its sender.
    ensures none_ahead { Always NoneAhead }

    // What is known of the peer is the latest counter that was heard.
    ensures known { Always KnownIsLatest }

    // A context has a remote once it is active, and a pending session has none.
    ensures opened { Always EachOpened }

    // The bearers of a closing session are closing.
    ensures closes_whole { Always EachClosesWhole }

    // Where no delivery of a create request was late, its gateway made at most one context for it
    // since it started.
    ensures made_once { Always OneContextPerRequest }

    // Where no delivery was late, each Create Bearer Request has one response that makes a bearer.
    ensures bearers_once { Always OneResponsePerBearerRequest }
{}

/// What one gateway makes for a request: its steps alone, whatever comes to it.
pub fn acts_once()
    // Until its answer is given up, a Create Session or Create Bearer Request makes at most one
    // context and has one answer, however often it comes.
    ensures until_forgotten { ActsOnce }

    // Where none of its deliveries is late, it makes at most one context in a start of the gateway
    // and has one answer.
    ensures in_time { ActsOnceInTime }

    // An answer that is held stays so until it is forgotten.
    ensures held { HeldUntilForgotten }

    // In each run the steps that are kept of a gateway lead from its start to what it is.
    ensures steps { Always StepsAreKept }

    // And in these a create request acts once: where no delivery of it was late, or where its answer
    // was not given up between two.
    ensures runs { Always EachRequestActsOnce }
{}

/// No law of safety is empty.
pub fn a_run_is_possible()
    // There is a run to sessions and dedicated bearers that name each other, and to an accepted
    // packet, and on from there, in which no delivery is late and each message can be sent.
    ensures commanded { ARunIsPossible }

    // And there is one with a template, whose bearer is asked for in the answer's datagram.
    ensures template { ATemplateIsPossible }
{}

/// What holds of one gateway alone, whatever comes to it.
pub fn sound_nodes()
    // A gateway that has just started is sound.
    ensures starts { StartsSound }

    // Each step from a sound gateway on a well-formed input leaves it sound.
    ensures stays { StaysSound }

    // So a gateway that well-formed inputs reach from a start is sound.
    ensures reached { ReachedIsSound }

    // Whatever came to a packet gateway since its start, no two of its sessions have one address of
    // either version.
    ensures addresses { GivesEachAddressOnce }

    // For a sound gateway no input is without an effect, but for a move of what is not there.
    ensures steps { AlwaysSteps }

    // A tick of a sound gateway leaves it sound.
    ensures ticks { TickStaysSound }

    // Whatever is due and there, a gateway can tick: it sends requests again, gives up those that
    // still wait, and forgets answers.
    ensures always_ticks { AlwaysTicks }

    // What a tick gives up was due to be given up, and waited when the tick began.
    ensures gives_up { GivesUpDue }

    // The test by which a session goes with an Error Indication is true exactly where one of the
    // bearers is its default one and has that remote.
    ensures breaks { BreaksByDefault }

    // What is read from octets names the F-TEIDs that its table asks for.
    ensures whole { ReadsWhole }

    // So do two messages of one datagram.
    ensures pair_whole { PairReadsWhole }

    // So does what a datagram of one or two messages is taken for.
    ensures taken_whole { TakenWhole }
{}

/// A step of a sound gateway is determined, but for what it may choose: the TEIDs of a new context,
/// its address or identity, and the number of a new request.
pub fn determined()
    // Whatever is chosen, one thing is told: the outcome, the counter that was heard, the packets,
    // how many datagrams are sent, and where to. Of a command's outcome the TEID may differ.
    ensures told { OneIsTold }

    // Where the choices are alike, the same datagrams are sent and the same gateway is left.
    ensures done { OneIsDone }

    // Nothing is chosen for a Create Session Response, so what comes with it finds one gateway.
    ensures answer { OneAnswer }

    // Nothing is chosen in a tick.
    ensures tick { OneTick }

    // A gateway that is reached from a start holds at most one answer for a request, as these ask.
    ensures reached { ReachedHoldsOneAnswer }
{}

/// What a gateway does with other versions than 2.
pub fn versions()
    // Octets of another version are answered by a Version Not Supported Indication, where the switch
    // is on.
    ensures told { VersionIsTold }

    // What is sent then reads as such an indication.
    ensures reads { ToldVersionReads }

    // Nothing is sent for such an indication, of whatever version it is, but an answer that is held
    // for the same octets. So two gateways do not answer each other for ever.
    ensures unanswered { TellingIsNotAnswered }
{}

/// The numbers of the standard that the definitions name by constants.
pub fn numbers()
    // The cause values that gateways send, and look at (TS 29.274, table 8.4-1).
    ensures causes { CauseValues }

    // The interface types of the F-TEIDs that they send (TS 29.274, table 8.22-1).
    ensures interfaces { InterfaceTypes }

    // The type of an EPS bearer identity, which they name at fault (TS 29.274, table 8.1-1).
    ensures elements { ElementTypes }
{}

/// How datagrams read.
pub fn readings()
    // Octets of the control plane read as the message that they spell, or as their first fault.
    ensures grammar { ControlByGrammar }

    // A datagram of the control plane reads as the one or two messages that it spells, or as its
    // first fault, which is not answered where a second message is announced.
    ensures datagrams { DatagramByGrammar }

    // Octets that read as a message by themselves read as a datagram of that message.
    ensures alone { MessageReadsAlone }

    // Octets of the user plane read as the message that they spell, or as their first fault.
    ensures user_grammar { UserByGrammar }

    // What a decoded message of the control plane reads as is what its fields say, each by its name.
    ensures named { ControlByName }

    // What a decoded message of the user plane reads as is what it carries.
    ensures user_named { UserByName }

    // Octets that spell a decoded message of the control plane read as that message.
    ensures decoded { DecodedReads }

    // Octets that spell a decoded message of the user plane read as that message.
    ensures user_decoded { UserDecodedReads }

    // A control message that is cut short reads as the fault of a cut.
    ensures cuts { CutsRead }

    // So does a datagram of one.
    ensures datagram_cuts { DatagramCutsRead }

    // A datagram of two messages that is cut short reads as the fault of a cut of two.
    ensures pair_cuts { PairCutsRead }

    // So does a user plane message.
    ensures user_cuts { UserCutsRead }

    // What a gateway sends for a message reads as that message.
    ensures spelled { SpelledReads }

    // What it sends for two messages in one datagram reads as both, each by its own octets.
    ensures pair_spelled { PairSpelledReads }

    // Messages that a gateway can send, with one encoding, are one.
    ensures apart { SpelledApart }

    // A Create Session Request that is decoded has a bearer context, and reads as one.
    ensures create_session_request { CreateSessionRequestReads }

    // A Create Bearer Request that is decoded has a bearer context, and reads as one.
    ensures create_bearer_request { CreateBearerRequestReads }
{}

/// An exchange on a path that brings each datagram at once.
pub fn fair_exchange()
    // Where nothing stands in the way, the command for a session, the delivery of its request and
    // the delivery of its answer make it at both gateways, as it was asked for, and its default
    // bearer carries packets in both directions.
    ensures made { FairExchange }

    // Each message that is sent in it can be sent.
    ensures sendable { ExchangeSendable }

    // There is such an exchange, with all that is asked of one, for each of the three types, and for
    // type 3 one that is answered with cause 16 and one with 18.
    ensures possible { ExchangesArePossible }

    // Where each message that was sent can be sent, each reads as itself.
    ensures reads { SendableRead }
{}

//! The laws of several services, each on a function of its own.

ghost use Rattle.service_laws.specs.Laws.{OthersMessagesChangeNothing, OwnTakesGive, OthersPacketsPass, OwnPacketsStay, OwnRestStays};
ghost use Rattle.service_laws.specs.Laws.{EachIsAlone, OthersAreTheNetworks, NoCueGoesOut};

/// The messages of others change nothing of a service: what it sends, and how it answers its own.
pub fn others_messages_change_nothing()
    ensures { OthersMessagesChangeNothing }
{}

/// A run that is given the messages of one service alone, at their marks, has that service's history.
pub fn own_takes_give()
    ensures { OwnTakesGive }
{}

/// For a packet that is on no PID of a service its chain sends exactly that packet.
pub fn others_packets_pass()
    ensures { OthersPacketsPass }
{}

/// For a packet on one of its PIDs it sends packets on its PIDs alone.
pub fn own_packets_stay()
    ensures { OwnPacketsStay }
{}

/// And so at the end of the network.
pub fn own_rest_stays()
    ensures { OwnRestStays }
{}

/// The packets of a service's PIDs in the output are those of a run of its own.
pub fn each_is_alone()
    ensures { EachIsAlone }
{}

/// The packets of no service's PIDs, and those marked in error, are the network's, byte for byte, in order.
pub fn others_are_the_networks()
    ensures { OthersAreTheNetworks }
{}

/// No packet of the output is on a cue PID, but for those that are marked in error.
pub fn no_cue_goes_out()
    ensures { NoCueGoesOut }
{}

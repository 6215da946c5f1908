//! A stream read to its end, as an advertisement.

ghost use Rattle.std.specs.Prelude.{◌≡◌, ◌⊎◌, ℕ, List, [], reverse, Option, Some, None, Err, OnOk, IfOk, IfErr, IfSome, false};
ghost use Rattle.ts_packet.specs.Packets.{packets_of};
ghost use Rattle.ts_packet.specs.Sources.{SourceCounts};
ghost use Rattle.ts_packet.specs.Sources.{Stalled, Exhausted};
ghost use Rattle.ad_library.specs.Advertisements.{advertisement};
ghost use Rattle.ad_library.specs.Library.{advert_seen};
ghost use Rattle.ad_library.specs.Faults.{advertisement_fault, end_fault, Says, is_of_library, StreamBlamed};
ghost use Rattle.ad_library.specs.Gathering.{Gathers};
ghost use Rattle.ad_library.specs.Reading.{GathersAll};
ghost use Rattle.ad_library.specs.Stops.{ReadToEnd, StoppedAt};

use crate::advert::Advert;
use crate::fault::{AdFault, of_read};
use crate::gathering::Gathering;
use std::alloc::Allocator;
use ts_packet::{Packet, PacketSource, ReadFault};

/// The advertisement of a stream.
pub(crate) fn read_advert<P: PacketSource, A: Allocator + Copy>(
    alloc: A,
    source: &mut P,
) -> Result<Advert<A>, AdFault>
    requires { P.is_broken source.old ≡ false }
    ensures files { IfOk result (λ ad. (ps : List (List ℕ)) × IfSome (P.left source.old) (λ bs. ps ≡ packets_of bs)
        × (Some (advert_seen ad) ≡ advertisement ps)) }
    ensures sound { OnOk result (IfSome (P.left source.old) (λ bs. advertisement_fault bs ≡ None)) }
    ensures says { IfErr result (λ f. IfSome (P.left source.old) (Says f)) }
    ensures own { IfErr result (λ f. is_of_library f ≡ false) }
    ensures read { OnOk result (SourceCounts false (P.has_ended source.old) (P.has_ended source.new)
        (P.counts source.old) (P.counts source.new)) }
    ensures reading { IfErr result (λ f. StreamBlamed f (P.counts source.old) (P.counts source.new)) }
    ensures turns { result ≡ Err (AdFault.Packets ReadFault.Turns)
        → Stalled P.leads P.counts P.falls_short source.old source.new ⊎ Exhausted P.left P.given source.old }
    ensures reads { P.leads source.old source.new }
    ensures end { OnOk result ((ps : List (List ℕ)) × ReadToEnd P.leads P.left P.given P.counts P.has_ended P.is_broken
        ps source.old source.new × (end_fault ps ≡ None)) }
    ensures at { IfErr result (λ f. StoppedAt P.leads P.left P.given P.counts P.has_ended P.is_broken P.falls_short
        f source.old source.new) }
{
    let mut gathering = Gathering::new(alloc);
    match gather(&mut gathering, source) {
        Ok(()) => match gathering.finish() {
            Ok(advert) => Ok(advert),
            Err(fault) => Err(fault),
        },
        Err(fault) => Err(fault),
    }
}

/// Takes the packets of a stream to its end.
fn gather<P: PacketSource, A: Allocator + Copy>(
    gathering: &mut Gathering<A>,
    source: &mut P,
) -> Result<(), AdFault>
    requires whole { P.is_broken source.old ≡ false }
    requires none { Gathers gathering.old [] }
    ensures ok { OnOk result (GathersAll (P.left source.old) gathering.new) }
    ensures says { IfErr result (λ f. IfSome (P.left source.old) (Says f)) }
    ensures own { IfErr result (λ f. is_of_library f ≡ false) }
    ensures read { OnOk result (SourceCounts false (P.has_ended source.old) (P.has_ended source.new)
        (P.counts source.old) (P.counts source.new)) }
    ensures reading { IfErr result (λ f. StreamBlamed f (P.counts source.old) (P.counts source.new)) }
    ensures turns { result ≡ Err (AdFault.Packets ReadFault.Turns)
        → Stalled P.leads P.counts P.falls_short source.old source.new ⊎ Exhausted P.left P.given source.old }
    ensures reads { P.leads source.old source.new }
    ensures end { OnOk result ((ps : List (List ℕ)) × ReadToEnd P.leads P.left P.given P.counts P.has_ended P.is_broken
        ps source.old source.new × Gathers gathering.new (reverse ps)) }
    ensures at { IfErr result (λ f. StoppedAt P.leads P.left P.given P.counts P.has_ended P.is_broken P.falls_short
        f source.old source.new) }
{
    let mut packet = Packet::null();
    loop {
        match source.read_packet(&mut packet) {
            Ok(true) => match gathering.take(&packet) {
                Ok(()) => {}
                Err(fault) => return Err(fault),
            },
            Ok(false) => return Ok(()),
            Err(fault) => return Err(of_read(fault)),
        }
    }
}

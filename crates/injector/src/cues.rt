//! The cues of standing events, sent.

ghost use Rattle.std.specs.Prelude.{◌≡◌, ◌<◌, ◌≤◌, ◌^◌, ◌%◌, ◌++◌, ◌∷◌, [], ℕ, ℤ, List, Option, length, OnOk, IfErr};
ghost use Rattle.ts_packet.specs.Runs.{onto};
ghost use Rattle.ts_packet.specs.Sinks.{Blamed};
ghost use Rattle.ts_packet.specs.Transfers.{WentWell};
ghost use Rattle.event_table.specs.Standing.{Standing, on_ring};
ghost use Rattle.event_table.specs.Tables.{StandsFor, high_time_of};
ghost use Rattle.outgoing_packets.specs.Numbers.{HasPut, FrontFails};
ghost use Rattle.injector.specs.Turns.{Turn};
ghost use Rattle.injector.specs.Requests.{RequestsStandFor};
ghost use Rattle.injector.specs.Senders.{Sender, start_cue, end_cue, cancel_cue, when, cues_by, cues_of, cues_before};
ghost use Rattle.injector.specs.Senders.{packed};
ghost use Rattle.injector.specs.Noting.{IsShown, Sending, NotesTold, IsBefore, IsCuedNext};

use crate::choice::{Choice, chosen};
use crate::notes::Notes;
use crate::requests::Requests;
use arrayvec::ArrayVec;
use event_table::Event;
use outgoing_packets::Outgoing;
use pes_time::Time33;
use scte35_codec::{CueOut, write};
use ts_packet::{PacketSink, Pid, PutFault};

/// The cue by which the event begins.
fn start_cue(event: &Event, notes: &Notes) -> CueOut
    ensures { (x : Sender) → IsShown event.now notes.now x → result ≡ start_cue x }
{
    CueOut::Start {
        event: event.id,
        time: event.start,
        length: ticks(event.asked),
        program: event.program,
        avail: notes.avail_num,
        expected: notes.avails_expected,
        avails: notes.avails.get(),
    }
}

/// So many ticks, as a number of 33 bits.
fn ticks(count: u64) -> Time33
    ensures { result ≡ count % 2 ^ 33 }
{
    match Time33::new(count % (1 << 33)) {
        Some(time) => time,
        None => unreachable!(),
    }
}

/// The cue by which it ends early.
fn end_cue(event: &Event) -> CueOut
    ensures { (x : Sender) → event.now ≡ on_ring x.event → result ≡ end_cue x }
{
    CueOut::End {
        event: event.id,
        time: event.end(),
    }
}

/// The cue by which it is taken back.
fn cancel_cue(event: &Event) -> CueOut
    ensures { (x : Sender) → event.now ≡ on_ring x.event → result ≡ cancel_cue x }
{
    CueOut::Cancel { event: event.id }
}

/// Puts a cue in one packet of this PID, where it is chosen.
fn put_chosen<S: PacketSink>(
    is_chosen: bool,
    cue: &CueOut,
    pid: Pid,
    out: &mut Outgoing,
    sink: &mut S,
) -> Result<(), PutFault>
    ensures leads { S.leads sink.old sink.new }
    ensures ok { (start : Option (List ℕ)) (ps puts : List (List ℕ)) → S.holds sink.old start ps → HasPut out.old puts →
        OnOk result (S.holds sink.new start (ps ++ packed pid puts (when is_chosen cue.now))) }
    ensures numbers { (puts : List (List ℕ)) → HasPut out.old puts →
        OnOk result (HasPut out.new (onto puts (packed pid puts (when is_chosen cue.now)))) }
    ensures err { (start : Option (List ℕ)) (ps puts : List (List ℕ)) → S.holds sink.old start ps →
        HasPut out.old puts →
        IfErr result (λ f. FrontFails (packed pid puts (when is_chosen cue.now))
        (λ put p. S.fails sink.new start (ps ++ put) p f)) }
    ensures well { OnOk result (WentWell (S.counts sink.old) (S.counts sink.new)) }
    ensures blamed { IfErr result (λ f. Blamed f (S.counts sink.old) (S.counts sink.new) (S.is_full sink.new)) }
{
    if !is_chosen {
        return Ok(());
    }
    let mut section = ArrayVec::new();
    write(cue, &mut section);
    out.put_section(pid, section.as_slice(), sink)
}

/// Puts those cues of an event that are chosen.
fn put_cues<S: PacketSink>(
    choice: Choice,
    event: &Event,
    notes: &Notes,
    pid: Pid,
    out: &mut Outgoing,
    sink: &mut S,
) -> Result<(), PutFault>
    ensures leads { S.leads sink.old sink.new }
    ensures ok { (start : Option (List ℕ)) (ps puts : List (List ℕ)) (x : Sender) → S.holds sink.old start ps →
        HasPut out.old puts → IsShown event.now notes.now x →
        OnOk result (S.holds sink.new start (ps ++ packed pid puts (cues_by x choice))) }
    ensures numbers { (puts : List (List ℕ)) (x : Sender) → HasPut out.old puts → IsShown event.now notes.now x →
        OnOk result (HasPut out.new (onto puts (packed pid puts (cues_by x choice)))) }
    ensures err { (start : Option (List ℕ)) (ps puts : List (List ℕ)) (x : Sender) → S.holds sink.old start ps →
        HasPut out.old puts → IsShown event.now notes.now x →
        IfErr result (λ f. FrontFails (packed pid puts (cues_by x choice))
        (λ put p. S.fails sink.new start (ps ++ put) p f)) }
    ensures well { OnOk result (WentWell (S.counts sink.old) (S.counts sink.new)) }
    ensures blamed { IfErr result (λ f. Blamed f (S.counts sink.old) (S.counts sink.new) (S.is_full sink.new)) }
    ensures pid { pid < 8192 }
{
    let _number = pid.get();
    match put_chosen(choice.start, &start_cue(event, notes), pid, out, sink) {
        Ok(()) => {}
        Err(fault) => return Err(fault),
    }
    match put_chosen(choice.end, &end_cue(event), pid, out, sink) {
        Ok(()) => {}
        Err(fault) => return Err(fault),
    }
    put_chosen(choice.cancel, &cancel_cue(event), pid, out, sink)
}

/// Puts the cues of the event that stands at this place, before a packet that lifts the greatest time from `high` to `later`.
#[cold]
#[inline(never)]
fn put_one<S: PacketSink>(
    requests: &mut Requests,
    place: usize,
    later: &Option<Time33>,
    pid: Pid,
    out: &mut Outgoing,
    sink: &mut S,
) -> Result<(), PutFault>
    requires { place < length requests.old.table.entries.items }
    ensures leads { S.leads sink.old sink.new }
    ensures ok { (start : Option (List ℕ)) (ps puts : List (List ℕ)) (latest after : Option ℤ) (done : List Sender)
        (x : Sender) (left : List Sender) → S.holds sink.old start ps → HasPut out.old puts →
        IsCuedNext requests.old place later.now latest after done x left →
        OnOk result (S.holds sink.new start (ps ++ packed pid puts (cues_of latest after x))) }
    ensures numbers { (puts : List (List ℕ)) (latest after : Option ℤ) (done : List Sender) (x : Sender)
        (left : List Sender) → HasPut out.old puts → IsCuedNext requests.old place later.now latest after done x left →
        OnOk result (HasPut out.new (onto puts (packed pid puts (cues_of latest after x)))) }
    ensures err { (start : Option (List ℕ)) (ps puts : List (List ℕ)) (latest after : Option ℤ) (done : List Sender)
        (x : Sender) (left : List Sender) → S.holds sink.old start ps → HasPut out.old puts →
        IsCuedNext requests.old place later.now latest after done x left →
        IfErr result (λ f. FrontFails (packed pid puts (cues_of latest after x))
        (λ put p. S.fails sink.new start (ps ++ put) p f)) }
    ensures well { OnOk result (WentWell (S.counts sink.old) (S.counts sink.new)) }
    ensures blamed { IfErr result (λ f. Blamed f (S.counts sink.old) (S.counts sink.new) (S.is_full sink.new)) }
    ensures sending { (latest after : Option ℤ) (done : List Sender) (x : Sender) (left : List Sender) →
        IsCuedNext requests.old place later.now latest after done x left →
        OnOk result (Sending requests.new latest after (done ++ x ∷ []) left) }
    ensures stands { (latest : Option ℤ) (standing : List Standing) → StandsFor requests.old.table latest standing →
        StandsFor requests.new.table latest standing }
    ensures index { requests.new.index ≡ requests.old.index }
    ensures high { high_time_of requests.new.table ≡ high_time_of requests.old.table }
    ensures count { length requests.new.table.entries.items ≡ length requests.old.table.entries.items }
    ensures pid { pid < 8192 }
{
    let _number = pid.get();
    let high = requests.high();
    let entry = requests.entry(place);
    let choice = chosen(&entry.event, &entry.value, high, *later);
    if choice.is_none() {
        return Ok(());
    }
    let event = entry.event;
    let notes = entry.value;
    match put_cues(choice, &event, &notes, pid, out, sink) {
        Ok(()) => {}
        Err(fault) => return Err(fault),
    }
    let told = notes.told(&event, *later);
    requests.note(place, told);
    Ok(())
}

/// Puts the cues that are due before a packet behind which this is the greatest time. Where it is known that none is, no event is
/// looked at.
#[inline(always)]
pub(crate) fn put_due<S: PacketSink>(
    is_due: bool,
    requests: &mut Requests,
    later: &Option<Time33>,
    pid: Pid,
    out: &mut Outgoing,
    sink: &mut S,
) -> Result<(), PutFault>
    ensures leads { S.leads sink.old sink.new }
    ensures ok { (start : Option (List ℕ)) (ps puts : List (List ℕ)) (index : ℕ) (past : List Turn) (latest : Option ℤ) →
        S.holds sink.old start ps → HasPut out.old puts → IsBefore is_due requests.old later.now index past latest →
        OnOk result (S.holds sink.new start (ps ++ packed pid puts (cues_before index latest past))) }
    ensures numbers { (puts : List (List ℕ)) (index : ℕ) (past : List Turn) (latest : Option ℤ) → HasPut out.old puts →
        IsBefore is_due requests.old later.now index past latest →
        OnOk result (HasPut out.new (onto puts (packed pid puts (cues_before index latest past)))) }
    ensures err { (start : Option (List ℕ)) (ps puts : List (List ℕ)) (index : ℕ) (past : List Turn) (latest : Option ℤ) →
        S.holds sink.old start ps → HasPut out.old puts → IsBefore is_due requests.old later.now index past latest →
        IfErr result (λ f. FrontFails (packed pid puts (cues_before index latest past))
        (λ put p. S.fails sink.new start (ps ++ put) p f)) }
    ensures well { OnOk result (WentWell (S.counts sink.old) (S.counts sink.new)) }
    ensures blamed { IfErr result (λ f. Blamed f (S.counts sink.old) (S.counts sink.new) (S.is_full sink.new)) }
    ensures stands { (index : ℕ) (past : List Turn) → RequestsStandFor requests.old index past →
        RequestsStandFor requests.new index past }
    ensures told { (puts : List (List ℕ)) (index : ℕ) (past : List Turn) (latest : Option ℤ) → HasPut out.old puts →
        IsBefore is_due requests.old later.now index past latest → OnOk result (NotesTold requests.new index past latest) }
    ensures high { high_time_of requests.new.table ≡ high_time_of requests.old.table }
{
    let _number = pid.get();
    if !is_due {
        return Ok(());
    }
    let mut place = 0;
    while place < requests.count() {
        match put_one(requests, place, later, pid, out, sink) {
            Ok(()) => {}
            Err(fault) => return Err(fault),
        }
        place += 1;
    }
    Ok(())
}

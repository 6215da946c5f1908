//! The unit of a switched stream that begins with a packet.

use crate::occurrence::EdgeFault;
use pes_time::{PesHead, Time33};
use psi_tables::Stream;
use random_access::{Marks, VideoCoding, packet_continues};
use ts_packet::{Packet, Pid};

/// A unit with a time that begins with a packet.
#[derive(Clone, Copy)]
pub(crate) struct Unit<'a> {
    /// The number of its stream among the switched ones.
    pub(crate) stream: usize,
    /// The PID of that.
    pub(crate) pid: Pid,
    /// Its time.
    pub(crate) pts: Time33,
    /// How its pictures are coded, where it is of pictures.
    coding: Option<VideoCoding>,
    packet: &'a Packet,
}

/// The stream on this PID among these.
fn stream_on(streams: &[Stream], pid: Pid) -> Option<usize> {
    streams.iter().position(|stream| stream.pid == pid)
}

/// The time at the front of a payload.
fn time_of(packet: &Packet) -> Option<Time33> {
    let Some(payload) = packet.payload() else {
        return None;
    };
    match PesHead::read(payload) {
        Ok(head) => head.pts(),
        Err(_) => None,
    }
}

impl<'a> Unit<'a> {
    /// The unit that begins with this packet in one of these streams.
    pub(crate) fn begun(packet: &'a Packet, streams: &[Stream]) -> Option<Unit<'a>> {
        if packet.error() || !packet.unit_start() {
            return None;
        }
        let stream = stream_on(streams, packet.pid())?;
        let pts = time_of(packet)?;
        let coding = match streams.get(stream) {
            Some(of) => VideoCoding::of_stream_type(of.kind),
            None => None,
        };
        Some(Unit {
            stream,
            pid: packet.pid(),
            pts,
            coding,
            packet,
        })
    }

    /// What keeps it from being an entry picture, where it is of pictures.
    pub(crate) fn fault(&self) -> Option<EdgeFault> {
        let coding = self.coding?;
        if Marks::of(self.packet).mark_for(Some(coding)).is_none() {
            return Some(EdgeFault::NoRandomAccess);
        }
        if packet_continues(coding, self.packet) {
            return Some(EdgeFault::NoEntryPicture);
        }
        None
    }

    /// It is an entry picture.
    pub(crate) fn is_entry(&self) -> bool {
        self.coding.is_some() && self.fault().is_none()
    }
}

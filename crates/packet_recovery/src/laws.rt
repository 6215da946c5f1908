//! What holds of the packets of any bytes, over the definitions alone.

ghost use Rattle.packet_recovery.specs.Laws.{PartsHoldNone, PacketsFollow, SyncIsFoundAgain};
ghost use Rattle.packet_recovery.specs.Laws.{BytesAreCounted, MendedAreSound, SoundStreamsStay};

/// Fewer than 188 bytes hold no packet.
pub fn parts_hold_none()
    ensures { PartsHoldNone }
{}

/// 188 bytes with the sync byte first are a packet, and those behind them follow.
pub fn packets_follow()
    ensures { PacketsFollow }
{}

/// Where the sync byte does not come first, the packets are those from the next place on where sync is found again.
pub fn sync_is_found_again()
    ensures { SyncIsFoundAgain }
{}

/// Each byte is in a packet, or is skipped.
pub fn bytes_are_counted()
    ensures { BytesAreCounted }
{}

/// What is passed on are packets, none of which is refused, and their bytes are read as these packets again.
pub fn mended_are_sound()
    ensures { MendedAreSound }
{}

/// The packets of a stream without a fault are passed on as they are, and what is skipped is what stands behind the last of them.
pub fn sound_streams_stay()
    ensures { SoundStreamsStay }
{}

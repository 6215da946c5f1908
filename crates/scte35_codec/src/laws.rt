//! What holds of every cue of our own.

ghost use Rattle.scte35_codec.specs.Laws.{CuesReadBack, CuesFitAPacket, PacketsReadBack, PacketsReadBackInTurn};

/// A cue's bytes are in the grammar, and are read back as the cue.
pub fn cues_read_back()
    ensures { CuesReadBack }
{}

/// A cue's bytes are a section that an assembler gives, and fit one packet.
pub fn cues_fit_a_packet()
    ensures { CuesFitAPacket }
{}

/// A cue in a packet is read back as that cue, whatever packets came before.
pub fn packets_read_back()
    ensures { PacketsReadBack }
{}

/// Cues in packets, one after another, are read back as those cues.
pub fn packets_read_back_in_turn()
    ensures { PacketsReadBackInTurn }
{}

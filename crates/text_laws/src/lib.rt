//! The laws of agreed blocks and of the printed text, as the top call needs them.
#![tactic(auto)]

ghost use Rattle.text_laws.specs.AgreedCounts.{AgreedBlocksCarryTheStream};
ghost use Rattle.text_laws.specs.Laws.{TameTextsAreSerial};

/// The agreed blocks have as many transactions as the stream has admitted, and no more configurations.
pub fn agreed_blocks_carry_the_stream()
    ensures { AgreedBlocksCarryTheStream }
{}

/// Whatever is lost, repeated or reordered: where the input is tame, the lines of each peer that isn't faulty are those of the serial run of the blocks that it completed.
pub fn tame_texts_are_serial()
    ensures { TameTextsAreSerial }
{}

//! The values of public constants. The bodies are empty: each function states what is proved.

ghost use Rattle.std.specs.Prelude.{◌≡◌};
ghost use Rattle.p25_status.specs.Sync.{bare_block_length, identifier_length, sent_block_length, sync_length, sync_slack};

use crate::{
    BARE_BLOCK_LENGTH, IDENTIFIER_LENGTH, SENT_BLOCK_LENGTH, SYNC, SYNC_LENGTH, SYNC_SLACK,
};

/// **Theorem.** The lengths of a block are those of the definitions: 70 bits of a data unit, transmitted as 72.
pub fn block_lengths()
    ensures bare { BARE_BLOCK_LENGTH ≡ bare_block_length }
    ensures sent { SENT_BLOCK_LENGTH ≡ sent_block_length }
{}

/// **Theorem.** The number of the frame sync, the bit errors that are accepted in it, and the lengths of the sync and
/// of the identifier after it.
pub fn sync_numbers()
    ensures sync { SYNC ≡ 0x5575_F5FF_77FF }
    ensures slack { SYNC_SLACK ≡ sync_slack }
    ensures length { SYNC_LENGTH ≡ sync_length }
    ensures identifier { IDENTIFIER_LENGTH ≡ identifier_length }
{}

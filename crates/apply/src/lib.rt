// Applies a message to a table: all of its changes, or none.
#![tactic(auto)]

ghost use Rattle.std.specs.Prelude.{◌≡◌, eqb};
ghost use Rattle.block.specs.Answers.{told};
ghost use Rattle.table.specs.Updates.{ApplyPost};

use block::Refusal;

// The changes of a message one after another; if one of them would be turned down, none is carried out.
pub fn apply(table: &mut [u8], scratch: &mut [u8], message: &[u8]) -> Result<(), Refusal>
    ensures { ApplyPost message.now table.old scratch.old (told result) table.new scratch.new }
{
    let bytes = table.len();
    if !block::sized(bytes) {
        return Err(Refusal::TableLength);
    }
    if scratch.len() < bytes {
        return Err(Refusal::LentLength);
    }
    message::judge(message)?;
    let done = carry::carry(table, scratch, message);
    // Turned down: neither the table nor the scratch was touched.
    if table::is_full(done) {
        return done;
    }
    octets::zero(scratch, bytes);
    done
}

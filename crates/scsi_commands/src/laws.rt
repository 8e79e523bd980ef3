//! The numbers of the named senses.
ghost use Rattle.std.specs.Prelude.{◌≡◌};
ghost use Rattle.scsi_commands.specs.Codes.{named_senses};

use crate::codes::Sense;

/// The named senses, each with the key, the code and the qualifier that the standard gives to a
/// condition of that name.
pub fn sense_codes() -> [Sense; 11]
    ensures { result ≡ named_senses }
{
    [
        Sense::NO_SENSE,
        Sense::INVALID_COMMAND_OPERATION_CODE,
        Sense::LOGICAL_BLOCK_ADDRESS_OUT_OF_RANGE,
        Sense::INVALID_FIELD_IN_CDB,
        Sense::INVALID_FIELD_IN_PARAMETER_LIST,
        Sense::PARAMETER_LIST_LENGTH_ERROR,
        Sense::SAVING_PARAMETERS_NOT_SUPPORTED,
        Sense::POWER_ON_OR_RESET_OCCURRED,
        Sense::UNRECOVERED_READ_ERROR,
        Sense::WRITE_ERROR,
        Sense::INTERNAL_TARGET_FAILURE,
    ]
}

//! Sense keys and additional sense codes.
ghost use Rattle.std.specs.Prelude.{◌≡◌, length, drop, slice_index};
ghost use Rattle.scsi.specs.Sense as value;
ghost use Rattle.scsi.specs.FixedSense.{fixed_sense};

use scsi::SenseKey;
use std::marker::Model;

/// Why a command failed: a sense key, an additional sense code and its qualifier (SPC-4 4.5.6).
#[derive(Clone, Copy, Debug, PartialEq, Eq)]
pub struct Sense {
    pub key: SenseKey,
    /// The additional sense code.
    pub code: u8,
    /// The additional sense code qualifier.
    pub qualifier: u8,
}

impl Model for Sense {
    ghost Value = { value.Sense };

    ghost view = { λ sense. record {
      key = sense.key;
      code = sense.code;
      qualifier = sense.qualifier;
    } };

    ghost inverse = { λ sense. record {
      key = sense.key;
      code = sense.code;
      qualifier = sense.qualifier;
    } };
}

impl Sense {
    /// Nothing to report.
    pub const NO_SENSE: Sense = Sense {
        key: SenseKey::NoSense,
        code: 0x00,
        qualifier: 0x00,
    };

    /// 5/20/00: the operation code is none that the unit knows.
    pub const INVALID_COMMAND_OPERATION_CODE: Sense = Sense {
        key: SenseKey::IllegalRequest,
        code: 0x20,
        qualifier: 0x00,
    };

    /// 5/21/00: the blocks go past the end of the medium.
    pub const LOGICAL_BLOCK_ADDRESS_OUT_OF_RANGE: Sense = Sense {
        key: SenseKey::IllegalRequest,
        code: 0x21,
        qualifier: 0x00,
    };

    /// 5/24/00: a field of the command descriptor block is not supported.
    pub const INVALID_FIELD_IN_CDB: Sense = Sense {
        key: SenseKey::IllegalRequest,
        code: 0x24,
        qualifier: 0x00,
    };

    /// 5/26/00: a field of the data that came with the command is not supported.
    pub const INVALID_FIELD_IN_PARAMETER_LIST: Sense = Sense {
        key: SenseKey::IllegalRequest,
        code: 0x26,
        qualifier: 0x00,
    };

    /// 5/1A/00: the parameter list would be cut in the middle of a field.
    pub const PARAMETER_LIST_LENGTH_ERROR: Sense = Sense {
        key: SenseKey::IllegalRequest,
        code: 0x1a,
        qualifier: 0x00,
    };

    /// 5/39/00: the unit saves no mode pages.
    pub const SAVING_PARAMETERS_NOT_SUPPORTED: Sense = Sense {
        key: SenseKey::IllegalRequest,
        code: 0x39,
        qualifier: 0x00,
    };

    /// 6/29/00: power on, reset, or bus device reset occurred.
    pub const POWER_ON_OR_RESET_OCCURRED: Sense = Sense {
        key: SenseKey::UnitAttention,
        code: 0x29,
        qualifier: 0x00,
    };

    /// 3/11/00: the medium refused a read.
    pub const UNRECOVERED_READ_ERROR: Sense = Sense {
        key: SenseKey::MediumError,
        code: 0x11,
        qualifier: 0x00,
    };

    /// 3/0C/00: the medium refused what a write needed.
    pub const WRITE_ERROR: Sense = Sense {
        key: SenseKey::MediumError,
        code: 0x0c,
        qualifier: 0x00,
    };

    /// 4/44/00: the unit cannot serve its medium any longer.
    pub const INTERNAL_TARGET_FAILURE: Sense = Sense {
        key: SenseKey::HardwareError,
        code: 0x44,
        qualifier: 0x00,
    };

    /// The sense as fixed-format sense data of a current error (SPC-4 4.5.3).
    #[tactic(auto, unfolding(scsi::specs::FixedSense::fixed_sense))]
    pub fn encode18(&self) -> [u8; 18]
        ensures bytes { result ≡ fixed_sense self.now }
        ensures counted { slice_index result 7 ≡ length (drop 8 result) }
    {
        let mut bytes = [0; 18];
        bytes[0] = CURRENT_FIXED;
        bytes[2] = self.key as u8;
        bytes[7] = ADDITIONAL_LENGTH;
        bytes[12] = self.code;
        bytes[13] = self.qualifier;
        bytes
    }
}

/// The response code of a current error in fixed format.
const CURRENT_FIXED: u8 = 0x70;

/// How many bytes follow the field that tells their number.
const ADDITIONAL_LENGTH: u8 = 10;

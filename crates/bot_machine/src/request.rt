//! Control requests (Bulk-Only Transport 1.0, 3; USB 2.0, 9.4).
ghost use Rattle.std.specs.Prelude.{◌≡◌, ◌≢◌, ◌↔◌, IsTrue, MatchOption};
ghost use Rattle.bot_machine.specs.Refinement.{request_meant};
ghost use Rattle.spec.specs.Requests.{Request, setup_packet, mass_storage_reset};

use spec::Endpoint;

// A control request that the transport knows.
#[derive(Clone, Copy)]
pub(crate) enum ControlRequest {
    MassStorageReset,
    GetMaxLun,
    ClearHalt(Endpoint),
    GetStatus(Endpoint),
}

/// The request that a setup packet spells, if it spells one.
pub(crate) fn read_request(packet: [u8; 8]) -> Option<ControlRequest>
    ensures { MatchOption result ((request : Request) → packet ≢ setup_packet request)
        (λ request. packet ≡ setup_packet (request_meant request)) }
{
    match packet {
        [0x21, 0xff, 0, 0, 0, 0, 0, 0] => Some(ControlRequest::MassStorageReset),
        [0xa1, 0xfe, 0, 0, 0, 0, 1, 0] => Some(ControlRequest::GetMaxLun),
        [0x02, 1, 0, 0, 0x81, 0, 0, 0] => Some(ControlRequest::ClearHalt(Endpoint::In)),
        [0x02, 1, 0, 0, 0x02, 0, 0, 0] => Some(ControlRequest::ClearHalt(Endpoint::Out)),
        [0x82, 0, 0, 0, 0x81, 0, 2, 0] => Some(ControlRequest::GetStatus(Endpoint::In)),
        [0x82, 0, 0, 0, 0x02, 0, 2, 0] => Some(ControlRequest::GetStatus(Endpoint::Out)),
        _ => None,
    }
}

/// Whether a setup packet asks for a mass storage reset.
pub(crate) fn is_reset(packet: [u8; 8]) -> bool
    ensures { IsTrue result ↔ (packet ≡ setup_packet mass_storage_reset) }
{
    matches!(packet, [0x21, 0xff, 0, 0, 0, 0, 0, 0])
}

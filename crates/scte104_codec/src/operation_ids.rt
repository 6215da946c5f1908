//! The values of `opID` that this profile names.

ghost use Rattle.std.specs.Prelude.{◌≡◌};
ghost use Rattle.scte104_codec.specs.OperationIds.{general_response_id, init_request_id, init_response_id, alive_request_id};
ghost use Rattle.scte104_codec.specs.OperationIds.{alive_response_id, inject_response_id, splice_request_id, splice_null_request_id};
ghost use Rattle.scte104_codec.specs.OperationIds.{insert_descriptor_id, insert_avail_descriptor_id, insert_segmentation_descriptor_id};
ghost use Rattle.scte104_codec.specs.OperationIds.{insert_tier_id, multiple_operation_mark};

/// `general_response`, a single operation: the answer to a request that has no answer of its own.
pub const GENERAL_RESPONSE: u16 = 0x0000;

/// `init_request`, a single operation: the first request of a session.
pub const INIT_REQUEST: u16 = 0x0001;

/// `init_response`, a single operation: the answer to `init_request`.
pub const INIT_RESPONSE: u16 = 0x0002;

/// `alive_request`, a single operation: asks whether the session still lives.
pub const ALIVE_REQUEST: u16 = 0x0003;

/// `alive_response`, a single operation: the answer to `alive_request`.
pub const ALIVE_RESPONSE: u16 = 0x0004;

/// `inject_response`, a single operation: the answer to a multiple operation. Its data are the `message_number`.
pub const INJECT_RESPONSE: u16 = 0x0007;

/// `splice_request_data`, in a multiple operation: start, end or cancel a break. Its data are 14 bytes.
pub const SPLICE_REQUEST: u16 = 0x0101;

/// `splice_null_request_data`, in a multiple operation.
pub const SPLICE_NULL_REQUEST: u16 = 0x0102;

/// `insert_descriptor_request_data`, in a multiple operation.
pub const INSERT_DESCRIPTOR: u16 = 0x0108;

/// `insert_avail_descriptor_request_data`, in a multiple operation: a count, and as many avail ids of four bytes.
pub const INSERT_AVAIL_DESCRIPTOR: u16 = 0x010A;

/// `insert_segmentation_descriptor_request_data`, in a multiple operation.
pub const INSERT_SEGMENTATION_DESCRIPTOR: u16 = 0x010B;

/// `insert_tier_data`, in a multiple operation.
pub const INSERT_TIER: u16 = 0x010F;

/// The first two bytes of a `multiple_operation_message`, in the place of an `opID`.
pub const MULTIPLE_OPERATION: u16 = 0xFFFF;

/// The numbers above are the standard's.
pub fn numbers_are_the_standards()
    ensures general_response { GENERAL_RESPONSE ≡ general_response_id }
    ensures init_request { INIT_REQUEST ≡ init_request_id }
    ensures init_response { INIT_RESPONSE ≡ init_response_id }
    ensures alive_request { ALIVE_REQUEST ≡ alive_request_id }
    ensures alive_response { ALIVE_RESPONSE ≡ alive_response_id }
    ensures inject_response { INJECT_RESPONSE ≡ inject_response_id }
    ensures splice_request { SPLICE_REQUEST ≡ splice_request_id }
    ensures splice_null_request { SPLICE_NULL_REQUEST ≡ splice_null_request_id }
    ensures insert_descriptor { INSERT_DESCRIPTOR ≡ insert_descriptor_id }
    ensures insert_avail_descriptor { INSERT_AVAIL_DESCRIPTOR ≡ insert_avail_descriptor_id }
    ensures insert_segmentation_descriptor { INSERT_SEGMENTATION_DESCRIPTOR ≡ insert_segmentation_descriptor_id }
    ensures insert_tier { INSERT_TIER ≡ insert_tier_id }
    ensures multiple_operation { MULTIPLE_OPERATION ≡ multiple_operation_mark }
{}

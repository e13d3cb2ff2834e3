// The entries as programs in C and Rust link them: the export of each calls the entry of its name, and promises what that promises.
#![tactic(auto)]

ghost use Rattle.std.specs.Prelude.{◌≡◌, true, ◌&&◌, is_some, unwrap_or};
ghost use Rattle.rows.specs.Bytes.{byte_of};
ghost use Rattle.names.specs.Names.{read_name, zero_name};
ghost use Rattle.calls.specs.Calls.{Open, Close, Select, Start, Continue, Elevate, Drop, End, Record, Kill, SetWord};
ghost use Rattle.entries_call.specs.CallEntry.{holds_number, CallEntry};
ghost use Rattle.entries_arguments.specs.Arguments.{session_of, credential_of, is_flag, flag_of, handed, class_of, wanted_of, user_claim_of, claim_of, are_claim_flags};
ghost use Rattle.entries_unprotected.specs.Fresh.{FreshEntry};
ghost use Rattle.entries_unprotected.specs.Version.{library_version};
ghost use Rattle.module_state.specs.Module.{both_words};
ghost use Rattle.entries_protected.specs.Listing.{ListEntry};
ghost use Rattle.entries_image.specs.Entries.{ImageEntry, RestoreEntry, RescueEntry};
ghost use Rattle.rows.specs.Rows.{over};
ghost use Rattle.calls.specs.Listing.{head_length};
ghost use Rattle.listing_messages.specs.Wire.{request, read_request, request_room, read_count};
ghost use Rattle.entries_listing.specs.Messages.{Given, RowEntry};
ghost use Rattle.message_fields.specs.Fields.{head_long, values_of};
ghost use Rattle.message_pieces.specs.Pieces.{piece_long};
ghost use Rattle.message_codes.specs.Codes.{piece_of};
ghost use Rattle.message_fields_write.specs.Bodies.{body_bytes, body_long};
ghost use Rattle.message_write.specs.Written.{message_bytes, message_long};
ghost use Rattle.message_read.specs.Messages.{read_message};
ghost use Rattle.entries_messages.specs.Entries.{read_message_number, write_message_number, read_piece_number, put_piece_number, ReadEntry, PieceEntry, WriteEntry};

// ---- the calls without a claim, a fresh module, about a slice and about the library

#[unsafe(no_mangle)]
pub extern "C" fn slavotuk_open(state: &mut [u8], port: u32, session: u32) -> u32
    ensures { CallEntry true state.old (Open (session_of port session)) result state.new }
{
    entries_unprotected::slavotuk_open(state, port, session)
}

#[unsafe(no_mangle)]
pub extern "C" fn slavotuk_close(state: &mut [u8], port: u32, session: u32) -> u32
    ensures { CallEntry true state.old (Close (session_of port session)) result state.new }
{
    entries_unprotected::slavotuk_close(state, port, session)
}

#[unsafe(no_mangle)]
pub extern "C" fn slavotuk_select(state: &mut [u8], port: u32, session: u32, version: u32) -> u32
    ensures { CallEntry true state.old (Select (session_of port session) (byte_of version)) result state.new }
{
    entries_unprotected::slavotuk_select(state, port, session, version)
}

#[unsafe(no_mangle)]
pub extern "C" fn slavotuk_start(
    state: &mut [u8],
    port: u32,
    session: u32,
    credential: u32,
    name: &[u8],
) -> u32
    ensures { CallEntry (is_some (read_name name.now)) state.old (Start (session_of port session) (credential_of credential) (unwrap_or (read_name name.now) zero_name)) result state.new }
{
    entries_unprotected::slavotuk_start(state, port, session, credential, name)
}

#[unsafe(no_mangle)]
pub extern "C" fn slavotuk_continue(
    state: &mut [u8],
    port: u32,
    session: u32,
    credential: u32,
    name: &[u8],
) -> u32
    ensures { CallEntry (is_some (read_name name.now)) state.old (Continue (session_of port session) (credential_of credential) (unwrap_or (read_name name.now) zero_name)) result state.new }
{
    entries_unprotected::slavotuk_continue(state, port, session, credential, name)
}

#[unsafe(no_mangle)]
pub extern "C" fn slavotuk_elevate(
    state: &mut [u8],
    port: u32,
    session: u32,
    credential: u32,
    name: &[u8],
    verdict: u32,
) -> u32
    ensures { CallEntry (is_some (read_name name.now) && is_flag verdict) state.old (Elevate (session_of port session) (credential_of credential) (unwrap_or (read_name name.now) zero_name) (flag_of verdict)) result state.new }
{
    entries_unprotected::slavotuk_elevate(state, port, session, credential, name, verdict)
}

#[unsafe(no_mangle)]
pub extern "C" fn slavotuk_drop(state: &mut [u8], port: u32, session: u32) -> u32
    ensures { CallEntry true state.old (Drop (session_of port session)) result state.new }
{
    entries_unprotected::slavotuk_drop(state, port, session)
}

#[unsafe(no_mangle)]
pub extern "C" fn slavotuk_fresh(
    state: &mut [u8],
    provisioned: &[u8],
    words: &[u32],
    seconds: &[u32],
) -> u32
    ensures { FreshEntry state.old (handed provisioned.now words.now seconds.now) result state.new }
{
    entries_unprotected::slavotuk_fresh(state, provisioned, words, seconds)
}

#[unsafe(no_mangle)]
pub extern "C" fn slavotuk_holds(state: &[u8]) -> u32
    ensures { result ≡ holds_number state.now }
{
    entries_unprotected::slavotuk_holds(state)
}

#[unsafe(no_mangle)]
pub extern "C" fn slavotuk_version() -> u32
    ensures { result ≡ library_version }
{
    entries_unprotected::slavotuk_version()
}

// ---- the protected calls

#[unsafe(no_mangle)]
pub extern "C" fn slavotuk_end(
    state: &mut [u8],
    port: u32,
    session: u32,
    credential: u32,
    number: u16,
    verdict: u32,
    keep: u32,
) -> u32
    ensures { CallEntry (is_flag verdict && is_flag keep) state.old (End (session_of port session) (user_claim_of credential number verdict) (flag_of keep)) result state.new }
{
    entries_protected::slavotuk_end(state, port, session, credential, number, verdict, keep)
}

#[unsafe(no_mangle)]
pub extern "C" fn slavotuk_record(
    state: &mut [u8],
    port: u32,
    session: u32,
    kind: u32,
    credential: u32,
    number: u16,
    verdict: u32,
    class: u32,
) -> u32
    ensures { CallEntry (are_claim_flags kind verdict) state.old (Record (session_of port session) (claim_of kind credential number verdict) (class_of class)) result state.new }
{
    entries_protected::slavotuk_record(
        state, port, session, kind, credential, number, verdict, class,
    )
}

#[unsafe(no_mangle)]
pub extern "C" fn slavotuk_list(
    state: &mut [u8],
    port: u32,
    session: u32,
    kind: u32,
    credential: u32,
    number: u16,
    verdict: u32,
    wanted: u32,
    response: &mut [u8],
    long: &mut usize,
) -> u32
    ensures { ListEntry (are_claim_flags kind verdict) state.old (session_of port session) (claim_of kind credential number verdict) (wanted_of wanted) response.old result state.new response.new long.new }
{
    entries_protected::slavotuk_list(
        state, port, session, kind, credential, number, verdict, wanted, response, long,
    )
}

#[unsafe(no_mangle)]
pub extern "C" fn slavotuk_kill(
    state: &mut [u8],
    port: u32,
    session: u32,
    kind: u32,
    credential: u32,
    number: u16,
    verdict: u32,
    name: &[u8],
) -> u32
    ensures { CallEntry (is_some (read_name name.now) && are_claim_flags kind verdict) state.old (Kill (session_of port session) (claim_of kind credential number verdict) (unwrap_or (read_name name.now) zero_name)) result state.new }
{
    entries_protected::slavotuk_kill(
        state, port, session, kind, credential, number, verdict, name,
    )
}

#[unsafe(no_mangle)]
pub extern "C" fn slavotuk_set_word(
    state: &mut [u8],
    port: u32,
    session: u32,
    kind: u32,
    credential: u32,
    number: u16,
    verdict: u32,
    target: u32,
    word: u32,
    second: u32,
) -> u32
    ensures { CallEntry (are_claim_flags kind verdict) state.old (SetWord (session_of port session) (claim_of kind credential number verdict) (credential_of target) (both_words word second)) result state.new }
{
    entries_protected::slavotuk_set_word(
        state, port, session, kind, credential, number, verdict, target, word, second,
    )
}

// ---- an image written, restored and rescued

#[unsafe(no_mangle)]
pub extern "C" fn slavotuk_image(state: &[u8], image: &mut [u8], long: &mut usize) -> u32
    ensures { ImageEntry state.now image.old result image.new long.new }
{
    entries_image::slavotuk_image(state, image, long)
}

#[unsafe(no_mangle)]
pub extern "C" fn slavotuk_restore(state: &mut [u8], image: &[u8]) -> u32
    ensures { RestoreEntry state.old image.now result state.new }
{
    entries_image::slavotuk_restore(state, image)
}

#[unsafe(no_mangle)]
pub extern "C" fn slavotuk_rescue(
    bytes: &[u8],
    image: &mut [u8],
    long: &mut usize,
    cleared: &mut u16,
    kept: &mut u16,
    dropped: &mut u16,
) -> u32
    ensures { RescueEntry bytes.now image.old cleared.old kept.old dropped.old result image.new long.new cleared.new kept.new dropped.new }
{
    entries_image::slavotuk_rescue(bytes, image, long, cleared, kept, dropped)
}

// ---- the listing's messages

#[unsafe(no_mangle)]
pub extern "C" fn slavotuk_read_request(message: &[u8], credential: &mut u16) -> u32
    ensures { Given (read_request message.now).number (read_request message.now).credential credential.old result credential.new }
{
    entries_listing::slavotuk_read_request(message, credential)
}

#[unsafe(no_mangle)]
pub extern "C" fn slavotuk_write_request(buffer: &mut [u8], credential: u16) -> u32
    ensures { (result ≡ request_room buffer.old) × (buffer.new ≡ over 0 head_length (request credential) buffer.old) }
{
    entries_listing::slavotuk_write_request(buffer, credential)
}

#[unsafe(no_mangle)]
pub extern "C" fn slavotuk_read_count(message: &[u8], count: &mut u16) -> u32
    ensures { Given (read_count message.now).number (read_count message.now).count count.old result count.new }
{
    entries_listing::slavotuk_read_count(message, count)
}

#[unsafe(no_mangle)]
pub extern "C" fn slavotuk_read_row(
    message: &[u8],
    at: usize,
    credential: &mut u16,
    kind: &mut u8,
    name: &mut [u8],
) -> u32
    ensures { RowEntry message.now at credential.old kind.old name.old result credential.new kind.new name.new }
{
    entries_listing::slavotuk_read_row(message, at, credential, kind, name)
}

// ---- the messages of 004 clause 9.2, and the pieces of their lists

#[unsafe(no_mangle)]
pub extern "C" fn slavotuk_read_message(message: &[u8], values: &mut [u64], rest: &mut usize) -> u32
    ensures { ReadEntry (read_message_number message.now values.old) (read_message message.now).values (read_message message.now).rest values.old rest.old result values.new rest.new }
{
    entries_messages::slavotuk_read_message(message, values, rest)
}

#[unsafe(no_mangle)]
pub extern "C" fn slavotuk_write_message(
    buffer: &mut [u8],
    code: u32,
    values: &[u64],
    rest: &[u8],
    written: &mut usize,
) -> u32
    ensures { WriteEntry (write_message_number code values.now rest.now buffer.old) (message_long (byte_of code) values.now rest.now) (message_bytes (byte_of code) values.now rest.now) buffer.old written.old result buffer.new written.new }
{
    entries_messages::slavotuk_write_message(buffer, code, values, rest, written)
}

#[unsafe(no_mangle)]
pub extern "C" fn slavotuk_read_piece(
    bytes: &[u8],
    kind: u32,
    values: &mut [u64],
    rest: &mut usize,
    next: &mut usize,
) -> u32
    ensures { PieceEntry (read_piece_number kind bytes.now values.old) (values_of (piece_of kind) bytes.now) (head_long (piece_of kind)) (piece_long (piece_of kind) bytes.now) values.old rest.old next.old result values.new rest.new next.new }
{
    entries_messages::slavotuk_read_piece(bytes, kind, values, rest, next)
}

#[unsafe(no_mangle)]
pub extern "C" fn slavotuk_write_piece(
    buffer: &mut [u8],
    kind: u32,
    values: &[u64],
    rest: &[u8],
    written: &mut usize,
) -> u32
    ensures { WriteEntry (put_piece_number kind values.now rest.now buffer.old) (body_long (piece_of kind) rest.now) (body_bytes (piece_of kind) values.now rest.now) buffer.old written.old result buffer.new written.new }
{
    entries_messages::slavotuk_write_piece(buffer, kind, values, rest, written)
}

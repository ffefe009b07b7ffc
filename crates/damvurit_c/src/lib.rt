// The calls of the centre for a program in C, as a static library. `include/damvurit.h` says the same to C.
// There is no code here but the exports: each calls the function of its name in the crate `damvurit` and has that function's clauses. None
// asks anything of its caller but what C's types cannot say, that a pointer reaches as many elements as its length says.
#![tactic(auto)]

ghost use Rattle.std.specs.Prelude.{◌≡◌};
ghost use Rattle.slip.specs.Answers.{write_after};
ghost use Rattle.layout.specs.Seat.{room_long};
ghost use Rattle.centre.specs.Calls.{lay_told, lay_after, open_told, open_after, close_told, close_after, set_told, set_after, back_told, back_after, read_told};
ghost use Rattle.centre.specs.Submit.{submit_told, submit_after, submit_slip};
ghost use Rattle.centre.specs.Slips.{write_told, read_told as slip_told};
ghost use Rattle.damvurit.specs.Flat.{flat_directory};
ghost use Rattle.damvurit.specs.Boundary.{result_number, open_result, seven, six, ticket_of, slip_of, wish_of};

// How many numbers a room has.
// In C: uint64_t damvurit_room_size(void).
#[unsafe(no_mangle)]
pub extern "C" fn damvurit_room_size() -> u64
    ensures { result ≡ room_long }
{
    damvurit::damvurit_room_size()
}

// Lays out a room.
// In C: uint64_t damvurit_lay_out(uint64_t *room, size_t n).
#[unsafe(no_mangle)]
pub extern "C" fn damvurit_lay_out(room: &mut [u64]) -> u64
    ensures result_value { result ≡ result_number (lay_told room.old) }
    ensures room_after { room.new ≡ lay_after room.old }
{
    damvurit::damvurit_lay_out(room)
}

// Opens a seat with two sums for each record of the directory. The detail is the opening number.
// In C: uint64_t damvurit_open(uint64_t *room, size_t n, const uint64_t *dir, size_t d, uint64_t seat, const uint64_t *sums, size_t k).
#[unsafe(no_mangle)]
pub extern "C" fn damvurit_open(room: &mut [u64], dir: &[u64], seat: u64, sums: &[u64]) -> u64
    ensures result_value { result ≡ open_result (open_told (flat_directory dir.now) seat sums.now room.old) }
    ensures room_after { room.new ≡ open_after (flat_directory dir.now) seat sums.now room.old }
{
    damvurit::damvurit_open(room, dir, seat, sums)
}

// Closes a seat.
// In C: uint64_t damvurit_close(uint64_t *room, size_t n, uint64_t seat, uint64_t opening).
#[unsafe(no_mangle)]
pub extern "C" fn damvurit_close(room: &mut [u64], seat: u64, opening: u64) -> u64
    ensures result_value { result ≡ result_number (close_told (ticket_of seat opening) room.old) }
    ensures room_after { room.new ≡ close_after (ticket_of seat opening) room.old }
{
    damvurit::damvurit_close(room, seat, opening)
}

// Sets an account's blocks and limits, as one step. A block is 0 or 1; LPO is 0 for none and n + 1 for n.
// In C: uint64_t damvurit_set(uint64_t *room, size_t n, const uint64_t *dir, size_t d, uint64_t seat, uint64_t opening, uint64_t owner,
// uint64_t account, uint64_t block_out, uint64_t block_in, uint64_t ltk, uint64_t lpo).
#[unsafe(no_mangle)]
pub extern "C" fn damvurit_set(
    room: &mut [u64],
    dir: &[u64],
    seat: u64,
    opening: u64,
    owner: u64,
    account: u64,
    block_out: u64,
    block_in: u64,
    ltk: u64,
    lpo: u64,
) -> u64
    ensures result_value { result ≡ result_number (set_told (flat_directory dir.now) (ticket_of seat opening) owner account (wish_of block_out block_in ltk lpo) room.old) }
    ensures room_after { room.new ≡ set_after (flat_directory dir.now) (ticket_of seat opening) owner account (wish_of block_out block_in ltk lpo) room.old }
{
    damvurit::damvurit_set(
        room, dir, seat, opening, owner, account, block_out, block_in, ltk, lpo,
    )
}

// Submits a sheet for a sender on a date (yyyymmdd), and writes its slip. The detail is the place, the field or the check.
// In C: uint64_t damvurit_submit(uint64_t *room, size_t n, const uint64_t *dir, size_t d, uint64_t seat, uint64_t opening, uint64_t sender,
// uint64_t date, const uint8_t *sheet, size_t m, uint8_t *slip, size_t l).
#[unsafe(no_mangle)]
pub extern "C" fn damvurit_submit(
    room: &mut [u64],
    dir: &[u64],
    seat: u64,
    opening: u64,
    sender: u64,
    date: u64,
    sheet: &[u8],
    slip: &mut [u8],
) -> u64
    ensures result_value { result ≡ result_number (submit_told (flat_directory dir.now) (ticket_of seat opening) sender date sheet.now slip.old room.old) }
    ensures room_after { room.new ≡ submit_after (flat_directory dir.now) (ticket_of seat opening) sender date sheet.now slip.old room.old }
    ensures slip_after { slip.new ≡ submit_slip (flat_directory dir.now) (ticket_of seat opening) sender date sheet.now slip.old room.old }
{
    damvurit::damvurit_submit(room, dir, seat, opening, sender, date, sheet, slip)
}

// Takes back the last step.
// In C: uint64_t damvurit_take_back(uint64_t *room, size_t n, uint64_t seat, uint64_t opening).
#[unsafe(no_mangle)]
pub extern "C" fn damvurit_take_back(room: &mut [u64], seat: u64, opening: u64) -> u64
    ensures result_value { result ≡ result_number (back_told (ticket_of seat opening) room.old) }
    ensures room_after { room.new ≡ back_after (ticket_of seat opening) room.old }
{
    damvurit::damvurit_take_back(room, seat, opening)
}

// Reads an account: opening sum, balance, turnover, block out, block in, LTK, LPO.
// In C: uint64_t damvurit_read(const uint64_t *room, size_t n, const uint64_t *dir, size_t d, uint64_t seat, uint64_t opening, uint64_t owner,
// uint64_t account, uint64_t out[7]).
#[unsafe(no_mangle)]
pub extern "C" fn damvurit_read(
    room: &[u64],
    dir: &[u64],
    seat: u64,
    opening: u64,
    owner: u64,
    account: u64,
    out: &mut [u64; 7],
) -> u64
    ensures result_value { result ≡ result_number (read_told (flat_directory dir.now) (ticket_of seat opening) owner account room.now) }
    ensures out_after { out.new ≡ seven (read_told (flat_directory dir.now) (ticket_of seat opening) owner account room.now) }
{
    damvurit::damvurit_read(room, dir, seat, opening, owner, account, out)
}

// Writes a slip into the first six bytes of a buffer.
// In C: uint64_t damvurit_write_slip(uint64_t kind, uint64_t status, uint64_t check, uint64_t seat, uint64_t opening, uint64_t step,
// uint8_t *slip, size_t l).
#[unsafe(no_mangle)]
pub extern "C" fn damvurit_write_slip(
    kind: u64,
    status: u64,
    check: u64,
    seat: u64,
    opening: u64,
    step: u64,
    slip: &mut [u8],
) -> u64
    ensures result_value { result ≡ result_number (write_told (slip_of kind status check seat opening step) slip.old) }
    ensures slip_after { slip.new ≡ write_after (slip_of kind status check seat opening step) slip.old }
{
    damvurit::damvurit_write_slip(kind, status, check, seat, opening, step, slip)
}

// Reads a slip: kind, status, check, seat, opening, step.
// In C: uint64_t damvurit_read_slip(const uint8_t *slip, size_t l, uint64_t out[6]).
#[unsafe(no_mangle)]
pub extern "C" fn damvurit_read_slip(slip: &[u8], out: &mut [u64; 6]) -> u64
    ensures result_value { result ≡ result_number (slip_told slip.now) }
    ensures out_after { out.new ≡ six (slip_told slip.now) }
{
    damvurit::damvurit_read_slip(slip, out)
}

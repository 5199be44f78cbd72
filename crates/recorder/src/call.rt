// What is asked of a recorder, as far as it is numbers. A record's elements, a play's slice and an export's buffer are beside it, so those
// three calls are not among these.

// A call with its arguments.
#[derive(Clone, Copy)]
pub enum Call<'a> {
    Format {
        kinds: &'a [u8],
        rate: u32,
        sitting: u32,
    },
    Mount,
    Arm,
    Save,
    Begin {
        track: u8,
        position: u32,
    },
    End {
        take: u32,
    },
    Withdraw {
        track: u8,
    },
}

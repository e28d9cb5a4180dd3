// How many bytes of buffer a call needs: enough for the outputs of any.
pub const BUFFER_LEN: usize = 10240;

// What a reference is judged by.
use state::record::{Frame, Layout};

// What stays as it is from one crossing to the next: the layout and where its segments lie, the live frame, and how many frames are in use. 372 bytes.
#[derive(Clone, Copy)]
pub struct View {
    pub layout: Layout,
    pub bases: [u32; 16],
    pub frame: Frame,
    pub depth: u8,
}

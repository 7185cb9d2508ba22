// A face of the region on which a component is corrected: what the definitions of the corrections say of it. The crate `corrections` computes the eight.
use cells::IndexBox;

// The component that is corrected on a face (0, 1, 2 along x, y, z), its cells there, the spacing across the face and the sign. The incident number for the
// plane k is number k + offset of its field.
// kept: the definitions of specs/Corrections.antt read `there`.
#[derive(Clone, Copy)]
pub struct Face {
    pub there: bool,
    pub component: usize,
    pub b: IndexBox,
    pub d: f64,
    pub minus: bool,
    pub offset: usize,
}

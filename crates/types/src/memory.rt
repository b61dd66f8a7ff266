// The two memories differ in the width of their pointers.
#[derive(Clone, Copy)]
pub enum Memory {
    Memory32,
    Memory64,
}

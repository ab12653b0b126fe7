use wb_base::Symbol;

/// A kernel as a step from an earlier one: line n of a list stands for the kernel n + 1, to which `symbol` leads from the kernel `from`.
#[derive(Clone, Copy)]
pub struct Line {
    pub from: usize,
    pub symbol: Symbol,
}

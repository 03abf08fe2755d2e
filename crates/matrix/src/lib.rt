// The matrix as one thing: a view of lent costs with their column width and their number of columns.
#![tactic(auto)]

ghost use Rattle.std.specs.Prelude.{◌≡◌, ℕ, ◌*◌, ◌<◌, length};
ghost use Rattle.matrix.specs.Matrix.{matrix, ColumnOf};
ghost use Rattle.matrix.specs.View.{value};

// The cost of a barred label, `BARRED` of specs/Matrix.
pub const BARRED: u32 = 4294967295;

// Its costs, one column after another; its column width; its column count.
#[derive(Clone, Copy)]
pub struct Matrix<'a> {
    pub costs: &'a [u32],
    pub width: usize,
    pub count: usize,
}

impl<'a> Matrix<'a> {
    // The costs of column t, of a matrix that has all its costs.
    pub fn column(self, t: usize) -> &'a [u32]
        requires full { length self.costs.now ≡ self.count * self.width }
        requires inside { t < self.count }
        ensures as_wide { length result.now ≡ self.entry.width }
        ensures costs { (k : ℕ) → k < self.entry.width → ColumnOf k (value self.entry) t result.now }
    {
        let at = t * self.width;
        let end = at + self.width;
        &self.costs[at..end]
    }
}

// The view of lent costs.
pub fn matrix_of(costs: &[u32], width: usize, count: usize) -> Matrix
    ensures { (result.costs ≡ costs.entry) × (value result ≡ matrix costs.now width count) }
{
    Matrix {
        costs,
        width,
        count,
    }
}

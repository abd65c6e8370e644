//! Polynomials by their coefficients, and power sums over different elements.

ghost use Rattle.std.specs.Prelude.{◌≡◌, ℕ, suc, ◌+◌, ◌<◌, ◌≤◌, ◌≢◌, ◌*◌};
ghost use Rattle.p25_gf64.specs.{declared.symbol.Sym.{Sym}, Gf64.{gf64}, Field.{power}, Symbol.{alpha}};
ghost use Rattle.p25_algebra.specs.{Sums.{AreApart, power_sum, nonzeros}, Series.{value_at, product_at, IsShort, IsDegree, times_linear, slope_at}};

/// **Theorem.** A polynomial of `length` coefficients with that many different zeros is zero.
pub fn few_zeros()
    ensures { (length count : ℕ) (f zeros : ℕ → Sym) → length ≤ count → AreApart count zeros
        → ((j : ℕ) → j < count → value_at gf64 length f (zeros j) ≡ gf64.zero)
        → (i : ℕ) → i < length → f i ≡ gf64.zero }
{}

/// **Theorem.** Products commute, associate and distribute over sums, and the degrees of factors add.
pub fn product_laws()
    ensures commutes { (f g : ℕ → Sym) (n : ℕ) → product_at gf64 f g n ≡ product_at gf64 g f n }
    ensures associates { (f g h : ℕ → Sym) (n : ℕ)
        → product_at gf64 (product_at gf64 f g) h n ≡ product_at gf64 f (product_at gf64 g h) n }
    ensures distributes { (f g h : ℕ → Sym) (n : ℕ)
        → product_at gf64 f (λ i. gf64.add (g i) (h i)) n ≡ gf64.add (product_at gf64 f g n) (product_at gf64 f h n) }
    ensures degrees { (f g : ℕ → Sym) (d e : ℕ) → IsDegree gf64 f d → IsDegree gf64 g e
        → IsDegree gf64 (product_at gf64 f g) (d + e) }
{}

/// **Theorem.** Values of sums and products are the sums and products of the values.
pub fn value_laws()
    ensures sums { (n : ℕ) (f g : ℕ → Sym) (x : Sym)
        → value_at gf64 n (λ i. gf64.add (f i) (g i)) x ≡ gf64.add (value_at gf64 n f x) (value_at gf64 n g x) }
    ensures products { (m k n : ℕ) (f g : ℕ → Sym) (x : Sym) → IsShort gf64 m f → IsShort gf64 k g → m + k ≤ n
        → value_at gf64 n (product_at gf64 f g) x ≡ gf64.mul (value_at gf64 m f x) (value_at gf64 k g x) }
{}

/// **Theorem.** If a polynomial f is multiplied by 1 + y x, the slope of f at each zero of f is multiplied by 1 + y z.
/// The slope at the zero of 1 + y x is y times the value of f.
pub fn slope_laws()
    ensures kept { (n : ℕ) (y : Sym) (f : ℕ → Sym) (z : Sym) → 0 < n → IsShort gf64 n f
        → value_at gf64 n f z ≡ gf64.zero
        → slope_at gf64 (suc n) (times_linear gf64 y f) z ≡ gf64.mul (gf64.add gf64.one (gf64.mul y z)) (slope_at gf64 n f z) }
    ensures made { (n : ℕ) (y : Sym) (f : ℕ → Sym) (z : Sym) → IsShort gf64 n f → gf64.mul y z ≡ gf64.one
        → slope_at gf64 (suc n) (times_linear gf64 y f) z ≡ gf64.mul y (value_at gf64 n f z) }
{}

/// **Theorem.** Quotient and remainder by a polynomial of degree d are unique, if the remainder has no coefficient from
/// x^d on.
pub fn unique_division()
    ensures { (n d : ℕ) (b q p r t : ℕ → Sym) → IsDegree gf64 b d
        → IsShort gf64 n q → IsShort gf64 n p → IsShort gf64 d r → IsShort gf64 d t
        → ((i : ℕ) → gf64.add (product_at gf64 b q i) (r i) ≡ gf64.add (product_at gf64 b p i) (t i))
        → (i : ℕ) → (q i ≡ p i) × (r i ≡ t i) }
{}

/// **Theorem.** Take power sums over different elements other than zero that vanish for m successive exponents. If at
/// most m factors are not zero, every factor is zero (the Vandermonde determinant is not zero).
pub fn vanishing_sums()
    ensures { (count m start : ℕ) (element factor : ℕ → Sym) → AreApart count element
        → ((j : ℕ) → j < count → element j ≢ gf64.zero)
        → nonzeros gf64 count factor ≤ m
        → ((i : ℕ) → start ≤ i → i < start + m → power_sum gf64 count element factor i ≡ gf64.zero)
        → (j : ℕ) → j < count → factor j ≡ gf64.zero }
{}

/// **Theorem.** Let the first 2m of the numbers s be the power sums of at most m factors other than zero, from the
/// exponent 1 on. Let f be a polynomial of degree at most m whose product with s has zero coefficients from x^m to
/// x^(2m - 1). Then f vanishes at the inverse of the element of each factor other than zero.
pub fn locator_vanishes()
    ensures { (n m : ℕ) (element factor f s : ℕ → Sym) → AreApart n element
        → ((j : ℕ) → j < n → element j ≢ gf64.zero)
        → nonzeros gf64 n factor ≤ m
        → IsShort gf64 (m + 1) f
        → ((i : ℕ) → i < 2 * m → s i ≡ power_sum gf64 n element factor (i + 1))
        → ((i : ℕ) → m ≤ i → i < 2 * m → product_at gf64 f s i ≡ gf64.zero)
        → (j : ℕ) → j < n → factor j ≢ gf64.zero → value_at gf64 (m + 1) f (gf64.inverse (element j)) ≡ gf64.zero }
{}

/// **Theorem.** Forney's formula. Let the first m of the numbers s be the power sums of different elements other than
/// zero, from the exponent 1 on. Let a polynomial f of degree at most m vanish at the inverse of each element whose
/// factor is not zero. Take the inverse of an element at which f vanishes. There the factor times the slope of f is the
/// value of the first m coefficients of the product of f and s.
pub fn forney()
    ensures { (n m : ℕ) (element factor f s : ℕ → Sym) → 1 ≤ m → AreApart n element
        → ((j : ℕ) → j < n → element j ≢ gf64.zero)
        → IsShort gf64 (m + 1) f
        → ((i : ℕ) → i < m → s i ≡ power_sum gf64 n element factor (i + 1))
        → ((j : ℕ) → j < n → factor j ≢ gf64.zero → value_at gf64 (m + 1) f (gf64.inverse (element j)) ≡ gf64.zero)
        → (j : ℕ) → j < n → value_at gf64 (m + 1) f (gf64.inverse (element j)) ≡ gf64.zero
        → gf64.mul (factor j) (slope_at gf64 (m + 1) f (gf64.inverse (element j)))
        ≡ value_at gf64 m (product_at gf64 f s) (gf64.inverse (element j)) }
{}

/// **Theorem.** The powers of α below 63 are different elements, and none is zero.
pub fn alpha_powers()
    ensures apart { AreApart 63 (power gf64 alpha) }
    ensures nonzero { (i : ℕ) → power gf64 alpha i ≢ gf64.zero }
{}

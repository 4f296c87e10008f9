ghost use Rattle.std.specs.Prelude.{[], codes, length, map, ◌<◌, ◌∷◌, ◌≡◌, ◌≤◌};
ghost use Rattle.dp_form.specs.{IsSymmetric};
ghost use Rattle.dp_plant.specs.Keys.{Gives, in_section, seen};
ghost use Rattle.dp_plant.specs.PlantFile as File;
ghost use Rattle.dp_plant.specs.Vectors.{entry};

use crate::keys::{field, number_at, numbers_at, squares_at};
use crate::{Cert, Lists, Parts, PlantFault};
use dp_form::{Squares, Sym};
use toml::Value;

#[tactic(auto, unfolding(crate::specs::PlantFile::cert_at))]
pub(crate) fn cert_of(document: Option<&Value>, version: u8) -> Result<Cert, PlantFault>
    ensures { Gives File.cert_view result (File.cert_at version (seen document.entry)) }
{
    let cert = field(document, "cert");
    let rho = number_at(cert, "cert", "rho")?;
    let b = number_at(cert, "cert", "b")?;
    let r = number_at(cert, "cert", "r")?;
    let g = numbers_at(cert, "cert", "g")?;
    let parts = parts_of(cert, version)?;
    Ok(Cert {
        rho,
        b,
        r,
        g,
        parts,
    })
}

/// Version 1 has three states, version 2 five.
#[tactic(auto, unfolding(crate::specs::PlantFile::parts_at))]
fn parts_of(cert: Option<&Value>, version: u8) -> Result<Parts, PlantFault>
    ensures { Gives File.parts_view result
        (File.parts_at version (in_section (codes "cert") cert.entry)) }
{
    if version == 1 {
        let lists = lists_of_three(cert)?;
        return Ok(Parts::Three(lists));
    }
    let lists = lists_of_five(cert)?;
    Ok(Parts::Five(lists))
}

#[tactic(auto, unfolding(crate::specs::PlantFile::lists_of_three))]
fn lists_of_three(cert: Option<&Value>) -> Result<Lists<3>, PlantFault>
    ensures { Gives File.lists_view result
        (File.lists_of_three (in_section (codes "cert") cert.entry)) }
{
    let p = numbers_at(cert, "cert", "p")?;
    let span = numbers_at(cert, "cert", "span")?;
    let Steps {
        form,
        vertex,
        output,
    } = steps_of(cert)?;
    let spans = three_of(cert, "span0", "span1", "span2")?;
    Ok(Lists {
        p: matrix_of_three(&p),
        span,
        form,
        vertex,
        output,
        spans,
    })
}

#[tactic(auto, unfolding(crate::specs::PlantFile::lists_of_five))]
fn lists_of_five(cert: Option<&Value>) -> Result<Lists<5>, PlantFault>
    ensures { Gives File.lists_view result
        (File.lists_of_five (in_section (codes "cert") cert.entry)) }
{
    let p = numbers_at(cert, "cert", "p")?;
    let span = numbers_at(cert, "cert", "span")?;
    let Steps {
        form,
        vertex,
        output,
    } = steps_of(cert)?;
    let [s0, s1, s2] = three_of(cert, "span0", "span1", "span2")?;
    let [s3, s4] = two_of(cert, "span3", "span4")?;
    Ok(Lists {
        p: matrix_of_five(&p),
        span,
        form,
        vertex,
        output,
        spans: [s0, s1, s2, s3, s4],
    })
}

/// The squares that show the form, its vertices and its demands.
#[derive(Drop)]
struct Steps<const N: usize> {
    form: Squares<N>,
    vertex: [[Squares<N>; 3]; 2],
    output: [[Squares<N>; 2]; 2],
}

#[tactic(auto, unfolding(crate::specs::PlantFile::steps_at))]
fn steps_of<const N: usize>(cert: Option<&Value>) -> Result<Steps<N>, PlantFault>
    ensures { Gives File.steps_view result
        (File.steps_at N (in_section (codes "cert") cert.entry)) }
{
    let form = squares_at(cert, "cert", "form")?;
    let surge = three_of(cert, "surge0", "surge1", "surge2")?;
    let sway = three_of(cert, "sway0", "sway1", "sway2")?;
    let out_surge = two_of(cert, "out_surge0", "out_surge1")?;
    let out_sway = two_of(cert, "out_sway0", "out_sway1")?;
    Ok(Steps {
        form,
        vertex: [surge, sway],
        output: [out_surge, out_sway],
    })
}

#[tactic(auto, unfolding(crate::specs::PlantFile::three_at))]
fn three_of<const N: usize>(
    cert: Option<&Value>,
    first: &str,
    second: &str,
    third: &str,
) -> Result<[Squares<N>; 3], PlantFault>
    requires { (length first.now ≤ 20) × (length second.now ≤ 20) × (length third.now ≤ 20) }
    ensures { Gives (map File.square_rows) result
        (File.three_at N (in_section (codes "cert") cert.entry) first.now second.now third.now) }
{
    let x = squares_at(cert, "cert", first)?;
    let y = squares_at(cert, "cert", second)?;
    let z = squares_at(cert, "cert", third)?;
    Ok([x, y, z])
}

#[tactic(auto, unfolding(crate::specs::PlantFile::two_at))]
fn two_of<const N: usize>(
    cert: Option<&Value>,
    first: &str,
    second: &str,
) -> Result<[Squares<N>; 2], PlantFault>
    requires { (length first.now ≤ 20) × (length second.now ≤ 20) }
    ensures { Gives (map File.square_rows) result
        (File.two_at N (in_section (codes "cert") cert.entry) first.now second.now) }
{
    let x = squares_at(cert, "cert", first)?;
    let y = squares_at(cert, "cert", second)?;
    Ok([x, y])
}

/// The symmetric matrix of the numbers of its upper half, row by row.
#[tactic(auto, using(crate::proofs::Matrices::matrices))]
fn matrix_of_three(numbers: &[i64; 6]) -> Sym<3>
    ensures value { result.at ≡ File.matrix File.three_rows numbers.now }
    ensures symmetric { IsSymmetric 3 result.at }
{
    Sym {
        at: [
            [
                i128::from(numbers[0]),
                i128::from(numbers[1]),
                i128::from(numbers[2]),
            ],
            [
                i128::from(numbers[1]),
                i128::from(numbers[3]),
                i128::from(numbers[4]),
            ],
            [
                i128::from(numbers[2]),
                i128::from(numbers[4]),
                i128::from(numbers[5]),
            ],
        ],
    }
}

#[tactic(auto, using(crate::proofs::Matrices::matrices))]
fn matrix_of_five(numbers: &[i64; 15]) -> Sym<5>
    ensures value { result.at ≡ File.matrix File.five_rows numbers.now }
    ensures symmetric { IsSymmetric 5 result.at }
{
    Sym {
        at: rows_of_five(numbers),
    }
}

fn rows_of_five(p: &[i64; 15]) -> [[i128; 5]; 5]
    ensures { result ≡ File.matrix File.five_rows p.now }
{
    [
        row_of(p, 0, 1, 2, 3, 4),
        row_of(p, 1, 5, 6, 7, 8),
        row_of(p, 2, 6, 9, 10, 11),
        row_of(p, 3, 7, 10, 12, 13),
        row_of(p, 4, 8, 11, 13, 14),
    ]
}

/// The numbers at five places.
fn row_of(p: &[i64; 15], a: usize, b: usize, c: usize, d: usize, e: usize) -> [i128; 5]
    requires { (a < 15) × (b < 15) × (c < 15) × (d < 15) × (e < 15) }
    ensures { result ≡ map (entry p.now) (a ∷ b ∷ c ∷ d ∷ e ∷ []) }
{
    five(p[a], p[b], p[c], p[d], p[e])
}

fn five(a: i64, b: i64, c: i64, d: i64, e: i64) -> [i128; 5]
    ensures { result ≡ a ∷ b ∷ c ∷ d ∷ e ∷ [] }
{
    [
        i128::from(a),
        i128::from(b),
        i128::from(c),
        i128::from(d),
        i128::from(e),
    ]
}

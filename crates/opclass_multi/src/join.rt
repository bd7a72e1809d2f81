//! Elements that join those with which they have a common number.

ghost use Rattle.std.specs.Prelude.{◌≡◌, ◌+◌, ◌≤◌, ◌<◌, ◌++◌, ◌∷◌, List, length, take, drop, vec_len, vec_capacity};
ghost use Rattle.opclass_multi.specs.declared.element.Element.{Element};
ghost use Rattle.opclass_multi.specs.Elements.{IsOrdered, StartsAfter, AreApart};
ghost use Rattle.opclass_multi.specs.Joined.{with_element, joined};

use crate::element::Element;

/// Room between elements: those in front of it are joined for good, those behind it not yet. Each element that is put
/// takes one place of it at most.
#[derive(Clone, Copy)]
struct Seam {
    front: usize,
    back: usize,
}

/// Adds the elements of `others`, each in its place; those with a common number become their hull. One pass over both.
pub(crate) fn join(elements: &mut Vec<Element>, others: &[Element])
    requires room { vec_len elements.old + length others.now ≤ vec_capacity elements.old }
    requires apart { AreApart elements.old.items }
    requires others_apart { AreApart others.now }
    ensures joined { elements.new.items ≡ joined elements.old.items others.now }
    ensures size { vec_len elements.new ≤ vec_len elements.old + length others.now }
    ensures room { vec_capacity elements.new ≡ vec_capacity elements.old }
{
    open(elements, others);
    let mut seam = Seam {
        front: 0,
        back: others.len(),
    };
    'others: for other in others {
        seam = put(elements, seam, *other);
    }
    close(elements, seam);
}

/// Moves the elements behind room for as many as the others are.
fn open(elements: &mut Vec<Element>, others: &[Element])
    requires { vec_len elements.old + length others.now ≤ vec_capacity elements.old }
    ensures moved { drop (length others.now) elements.new.items ≡ elements.old.items }
    ensures size { vec_len elements.new ≡ vec_len elements.old + length others.now }
    ensures room { vec_capacity elements.new ≡ vec_capacity elements.old }
{
    let own = elements.len();
    'others: for other in others {
        elements.push_reserved(*other);
    }
    elements.copy_within(..own, others.len());
}

/// Puts an element in its place behind the seam; while it has a number in common with another, the two become their hull.
/// What lies before it comes to the front, since no later element meets it.
fn put(elements: &mut Vec<Element>, seam: Seam, element: Element) -> Seam
    requires room { (seam.front < seam.back) × (seam.back ≤ vec_len elements.old) }
    requires ordered { IsOrdered element }
    requires apart { AreApart (drop seam.back elements.old.items) }
    ensures joined { (others : List Element) → AreApart others → StartsAfter element.greatest others → take result.front elements.new.items ++ joined (drop result.back elements.new.items) others ≡ take seam.front elements.old.items ++ joined (with_element element (drop seam.back elements.old.items)) others }
    ensures apart { AreApart (drop result.back elements.new.items) }
    ensures places { (seam.back + result.front ≤ seam.front + result.back + 1) × (result.back ≤ vec_len elements.old) }
    ensures size { vec_len elements.new ≡ vec_len elements.old }
    ensures room { vec_capacity elements.new ≡ vec_capacity elements.old }
{
    let mut new = element;
    let mut front = seam.front;
    let mut back = seam.back;
    'places: while back < elements.len() {
        let next = elements[back];
        if new.greatest < next.least {
            return seat(elements, Seam { front, back }, new);
        }
        if next.greatest < new.least {
            elements[front] = next;
            front += 1;
        } else {
            new = new.hull(next);
        }
        back += 1;
    }
    seat(elements, Seam { front, back }, new)
}

/// Puts an element at the back of the seam.
fn seat(elements: &mut Vec<Element>, seam: Seam, element: Element) -> Seam
    requires room { (seam.front < seam.back) × (seam.back ≤ vec_len elements.old) }
    ensures front { take seam.front elements.new.items ≡ take seam.front elements.old.items }
    ensures back { drop result.back elements.new.items ≡ element ∷ drop seam.back elements.old.items }
    ensures places { (result.front ≡ seam.front) × (result.back + 1 ≡ seam.back) }
    ensures size { vec_len elements.new ≡ vec_len elements.old }
    ensures room { vec_capacity elements.new ≡ vec_capacity elements.old }
{
    let back = seam.back - 1;
    elements[back] = element;
    Seam {
        front: seam.front,
        back,
    }
}

/// Closes the seam.
fn close(elements: &mut Vec<Element>, seam: Seam)
    requires { (seam.front ≤ seam.back) × (seam.back ≤ vec_len elements.old) }
    ensures closed { elements.new.items ≡ take seam.front elements.old.items ++ drop seam.back elements.old.items }
    ensures size { vec_len elements.new + seam.back ≡ vec_len elements.old + seam.front }
    ensures room { vec_capacity elements.new ≡ vec_capacity elements.old }
{
    elements.copy_within(seam.back.., seam.front);
    elements.truncate(elements.len() - (seam.back - seam.front));
}

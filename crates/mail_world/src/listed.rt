//! Worked examples: the mailboxes of a list, and which addresses mean them.

ghost use Rattle.std.specs.Prelude.{◌≡◌, [], ◌∷◌, ◌++◌, codes, replicate, Some, None, true, false};
ghost use Rattle.std.specs.Str.{byte};
ghost use Rattle.mail_world.specs.Site.{IsSite, BadBox, NamedTwice, is_listed_name, listed_fault_of};
ghost use Rattle.mail_world.specs.Targets.{box_of, knows_domain};
ghost use Rattle.mail_world.specs.Rows.{listed_site, listed_plus_site, further_site, recipient, recipient_at, site_with};

/// The mailboxes of targets at a site whose list has an address.
pub fn listed_targets()
    ensures at_host { box_of listed_site (recipient_at (codes "mx.example") (codes "anna")) ≡ Some 0 }
    ensures no_domain { box_of listed_site (recipient (codes "anna")) ≡ Some 0 }
    ensures address { box_of listed_site (recipient_at (codes "TWO.example") (codes "Anna")) ≡ Some 1 }
    ensures detail { box_of listed_plus_site (recipient_at (codes "two.example") (codes "anna+x")) ≡ Some 1 }
    ensures no_address { box_of listed_site (recipient_at (codes "two.example") (codes "ben")) ≡ None }
    ensures another_domain { box_of listed_site (recipient_at (codes "two.example") (codes "o'brien")) ≡ None }
    ensures bracket { box_of listed_site (recipient_at (codes "[127.0.0.1]") (codes "anna")) ≡ None }
    ensures postmaster { box_of listed_site (recipient_at (codes "two.example") (codes "Postmaster")) ≡ Some 1 }
    ensures own_postmaster { box_of listed_site (recipient_at (codes "mx.example") (codes "postmaster")) ≡ Some 0 }
    ensures no_postmaster { box_of listed_site (recipient_at (codes "six.example") (codes "postmaster")) ≡ None }
    ensures apostrophe { box_of listed_site (recipient_at (codes "mx.example") (codes "o'brien")) ≡ Some 2 }
    ensures quoted { box_of listed_site
        (record { local = codes "o'brien"; quoted = true; domain = Some (codes "mx.example") }) ≡ Some 2 }
    ensures quoted_address { box_of listed_site
        (record { local = codes "anna@two.example"; quoted = true; domain = Some (codes "mx.example") }) ≡ None }
    ensures quoted_address_alone { box_of listed_site
        (record { local = codes "anna@two.example"; quoted = true; domain = None }) ≡ None }
{}

/// The mailboxes of targets at a domain that is the site's and that listed addresses are at too.
pub fn further_targets()
    ensures address_first { box_of further_site (recipient_at (codes "two.example") (codes "anna")) ≡ Some 2 }
    ensures local_part { box_of further_site (recipient_at (codes "two.example") (codes "ben")) ≡ Some 0 }
    ensures whole_before_user { box_of further_site (recipient_at (codes "two.example") (codes "anna+x")) ≡ Some 3 }
    ensures address_of_user { box_of further_site (recipient_at (codes "two.example") (codes "anna+y")) ≡ Some 2 }
    ensures user_at_host { box_of further_site (recipient_at (codes "mx.example") (codes "anna+y")) ≡ Some 1 }
    ensures postmaster { box_of further_site (recipient_at (codes "two.example") (codes "postmaster")) ≡ Some 0 }
{}

/// The domains that such sites know.
pub fn known_domains()
    ensures host { knows_domain listed_site (Some (codes "MX.example")) ≡ true }
    ensures listed { knows_domain listed_site (Some (codes "Two.example")) ≡ true }
    ensures other { knows_domain listed_site (Some (codes "wo.example")) ≡ false }
    ensures bracket { knows_domain listed_site (Some (codes "[127.0.0.1]")) ≡ false }
{}

/// The names that a list may have.
pub fn listed_names()
    ensures apostrophe { is_listed_name (codes "o'brien") ≡ true }
    ensures plus { is_listed_name (codes "anna+x=y") ≡ true }
    ensures long { is_listed_name (replicate 64 (byte "a")) ≡ true }
    ensures too_long { is_listed_name (replicate 65 (byte "a")) ≡ false }
    ensures long_in_address { is_listed_name (replicate 65 (byte "a") ++ codes "@two.example") ≡ false }
    ensures upper_case { is_listed_name (codes "Anna") ≡ false }
    ensures dot { is_listed_name (codes ".anna") ≡ false }
    ensures address { is_listed_name (codes "anna@two.example") ≡ true }
    ensures two_ats { is_listed_name (codes "anna@two@example") ≡ false }
    ensures no_local_part { is_listed_name (codes "@two.example") ≡ false }
    ensures no_domain { is_listed_name (codes "anna@") ≡ false }
    ensures upper_domain { is_listed_name (codes "anna@Two.example") ≡ false }
    ensures bad_domain { is_listed_name (codes "anna@two_example") ≡ false }
    ensures any_domain { is_listed_name (codes "anna@*") ≡ false }
    ensures folder_above { is_listed_name (codes "anna@..") ≡ false }
    ensures path { is_listed_name (codes "a/b") ≡ false }
{}

/// What is wrong with a site of a list.
pub fn listed_sites()
    ensures good { IsSite listed_site }
    ensures own_and_address { IsSite (site_with (codes "mx.example") [] (codes "anna" ∷ codes "anna@mx.example" ∷ [])) }
    ensures bad { listed_fault_of (site_with (codes "mx.example") [] (codes "anna" ∷ codes "a@b@c" ∷ [])) ≡ Some BadBox }
    ensures twice { listed_fault_of
        (site_with (codes "mx.example") [] (codes "anna@two.example" ∷ codes "anna@two.example" ∷ []))
        ≡ Some NamedTwice }
{}

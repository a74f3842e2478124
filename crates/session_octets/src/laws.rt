//! What is spelled is read again, whatever follows it, and what is read has that spelling alone.

ghost use Rattle.std.specs.Prelude.{◌≡◌, ◌++◌, List, ℕ, Ok};
ghost use Rattle.octet_format.specs.Octets.{IsBytes};
ghost use Rattle.refl_types.specs.declared.types.Endpoint.{Endpoint};
ghost use Rattle.refl_types.specs.declared.types.Mode.{Mode};
ghost use Rattle.refl_types.specs.declared.types.Key.{Key};
ghost use Rattle.refl_types.specs.declared.types.Extra.{Extra};
ghost use Rattle.refl_types.specs.declared.config.ConfigParts.{ConfigParts};
ghost use Rattle.refl_types.specs.Spelling.{endpoint_octets, key_octets, extra_octets, config_octets, FitsEndpoint, FitsConfig};
ghost use Rattle.session_octets.specs.Sound.{FitsInMode, FitsExtra};
ghost use Rattle.session_octets.specs.Reading.{endpoint_at, key_at, extra_at, config_at};

/// Endpoints.
pub fn law_endpoints()
    ensures read { (e : Endpoint) (rest : List ℕ) → FitsEndpoint e → endpoint_at (endpoint_octets e ++ rest) ≡ Ok (e, rest) }
    ensures spelled { (octets rest : List ℕ) (e : Endpoint) → IsBytes octets → endpoint_at octets ≡ Ok (e, rest)
        → (octets ≡ endpoint_octets e ++ rest) × FitsEndpoint e }
{}

/// Keys whose SSID is 0 in mode Twamp.
pub fn law_keys()
    ensures read { (k : Key) (rest : List ℕ) → FitsInMode k → key_at (key_octets k ++ rest) ≡ Ok (k, rest) }
    ensures spelled { (octets rest : List ℕ) (k : Key) → IsBytes octets → key_at octets ≡ Ok (k, rest)
        → (octets ≡ key_octets k ++ rest) × FitsInMode k }
{}

/// Extras of a mode.
pub fn law_extras()
    ensures read { (m : Mode) (x : Extra) (rest : List ℕ) → FitsExtra m x → extra_at m (extra_octets x ++ rest) ≡ Ok (x, rest) }
    ensures spelled { (m : Mode) (octets rest : List ℕ) (x : Extra) → IsBytes octets → extra_at m octets ≡ Ok (x, rest)
        → (octets ≡ extra_octets x ++ rest) × FitsExtra m x }
{}

/// Configurations.
pub fn law_configs()
    ensures read { (c : ConfigParts) (rest : List ℕ) → FitsConfig c → config_at (config_octets c ++ rest) ≡ Ok (c, rest) }
    ensures spelled { (octets rest : List ℕ) (c : ConfigParts) → IsBytes octets → config_at octets ≡ Ok (c, rest)
        → (octets ≡ config_octets c ++ rest) × FitsConfig c }
{}
